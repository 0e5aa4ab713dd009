// Numbers by their patterns, as the machine's floats have them: binary64 where WIDE, else binary32. They stay plain words, with what holds of each
// in the contracts: a struct of one would be opened and made again at every sum and choice. Rests on the kit's account of `+`, `<=` and `<` on f32 and f64.
ghost use Rattle.std.specs.Prelude.{◌≡◌, ◌&&◌, ◌||◌, true, cond, ◌+◌, ◌-◌, leb, ltb};
ghost use Rattle.arith.specs.Formats.{is_finite, ordinal, pattern};
ghost use Rattle.machine.specs.Floats.{machine, is_number, FitsWidth, Adds, Negates, unsigned};

use arith::format::Format;
use arith::width::format_of;
use std::hint::select_unpredictable;

// The format of the machine's floats.
pub(crate) fn format_at<const WIDE: bool>() -> Format
    ensures { result ≡ machine WIDE }
{
    if WIDE {
        return format_of(64);
    }
    format_of(32)
}

// The sum of a number and a finite one.
pub(crate) fn add<const WIDE: bool>(p: u64, q: u64) -> u64
    requires { (is_number (machine WIDE) p ≡ true) × (is_finite (machine WIDE) q ≡ true) }
    ensures { Adds (machine WIDE) p q result }
{
    if WIDE {
        return f64::to_bits(f64::from_bits(p) + f64::from_bits(q));
    }
    f32::to_bits(f32::from_bits(p as u32) + f32::from_bits(q as u32)) as u64
}

// Whether p is no more than q.
pub(crate) fn at_most<const WIDE: bool>(p: u64, q: u64) -> bool
    requires { (is_number (machine WIDE) p ≡ true) × (is_number (machine WIDE) q ≡ true) }
    ensures { result ≡ leb (ordinal (machine WIDE) p) (ordinal (machine WIDE) q) }
{
    if WIDE {
        return f64::from_bits(p) <= f64::from_bits(q);
    }
    f32::from_bits(p as u32) <= f32::from_bits(q as u32)
}

// Whether p is less than q.
pub(crate) fn below<const WIDE: bool>(p: u64, q: u64) -> bool
    requires { (is_number (machine WIDE) p ≡ true) × (is_number (machine WIDE) q ≡ true) }
    ensures { result ≡ ltb (ordinal (machine WIDE) p) (ordinal (machine WIDE) q) }
{
    if WIDE {
        return f64::from_bits(p) < f64::from_bits(q);
    }
    f32::from_bits(p as u32) < f32::from_bits(q as u32)
}

// The number with the other sign.
pub(crate) fn opposite<const WIDE: bool>(p: u64) -> u64
    requires { is_number (machine WIDE) p ≡ true }
    ensures { Negates (machine WIDE) p result }
{
    p ^ format_at::<WIDE>().sign
}

// The pattern without its sign.
pub(crate) fn size<const WIDE: bool>(p: u64) -> u64
    requires { FitsWidth WIDE p }
    ensures { result ≡ unsigned (machine WIDE) p }
{
    p % format_at::<WIDE>().sign
}

// Whether a pattern has no bits beyond the width.
pub(crate) fn fits<const WIDE: bool>(p: u64) -> bool
    ensures { result ≡ true → FitsWidth WIDE p }
{
    if WIDE {
        return true;
    }
    p < 0x1_0000_0000
}

// Whether such a pattern is finite.
pub(crate) fn finite_at<const WIDE: bool>(p: u64) -> bool
    requires { FitsWidth WIDE p }
    ensures { result ≡ is_finite (machine WIDE) p }
{
    let format = format_at::<WIDE>();
    size::<WIDE>(p) < format.infinity
}

// The lesser of two.
pub(crate) fn lesser<const WIDE: bool>(p: u64, q: u64) -> u64
    requires { (is_number (machine WIDE) p ≡ true) × (is_number (machine WIDE) q ≡ true) }
    ensures { result ≡ cond (leb (ordinal (machine WIDE) p) (ordinal (machine WIDE) q)) p q }
{
    select_unpredictable(at_most::<WIDE>(p, q), p, q)
}

// The greater of two.
pub(crate) fn greater<const WIDE: bool>(p: u64, q: u64) -> u64
    requires { (is_number (machine WIDE) p ≡ true) × (is_number (machine WIDE) q ≡ true) }
    ensures { result ≡ cond (leb (ordinal (machine WIDE) p) (ordinal (machine WIDE) q)) q p }
{
    select_unpredictable(at_most::<WIDE>(p, q), q, p)
}

// The one pattern that is written for a finite number.
pub(crate) fn canonical<const WIDE: bool>(p: u64) -> u64
    requires { is_finite (machine WIDE) p ≡ true }
    ensures { result ≡ pattern (machine WIDE) (ordinal (machine WIDE) p) }
{
    let format = format_at::<WIDE>();
    if p == format.sign {
        return 0;
    }
    p
}
