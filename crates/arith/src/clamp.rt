// The clamp: a power of two that divides no value of the sum's range, and an operand's range without the stretch, beyond zero from the sum, in which every float is a multiple of it.
ghost use Rattle.std.specs.Prelude.{◌≡◌, ◌-◌, ◌/◌, ◌^◌, ◌<◌, ◌≤◌};
ghost use Rattle.ladder.specs.Search.{NoMultiple, SomeMultiple, raised, lowered};
ghost use Rattle.arith.specs.Exacts.{Fraction};
ghost use Rattle.arith.specs.Intervals.{Bounded, span};

use crate::format::Format;
use crate::range::{Range, reflect};
use crate::words::{digits, shift_left, shift_right};

// How many low digits to drop until p and q agree; with one less they do not.
fn differing(p: u64, q: u64) -> u64
    requires { p < q }
    ensures { (p / 2 ^ result ≡ q / 2 ^ result) × (0 < result) × (p / 2 ^ (result - 1) < q / 2 ^ (result - 1)) × (result ≤ 64) }
{
    digits(p ^ q)
}

// A k such that for no m from lo to hi the value is a multiple of 2^k units, but for one it is of half of that.
pub(crate) fn granularity(fraction: u64, lo: u64, hi: u64) -> u64
    requires { (Fraction fraction) × (0 < lo) × (lo ≤ hi) }
    ensures { (NoMultiple fraction result lo hi) × (SomeMultiple fraction (result - 1) lo hi) }
{
    let field = shift_right(hi, fraction);
    if shift_right(lo, fraction) != field {
        return fraction + field;
    }
    if field == 0 {
        return differing(lo - 1, hi);
    }
    let shift = field - 1;
    let base = shift_left(shift, fraction);
    differing(lo - base - 1, hi - base) + shift
}

// The range without the values below zero of 2^(k + fraction) units and more.
pub(crate) fn raise(format: Format, k: u64, r: Range) -> Range
    ensures { span result ≡ raised format.fraction format.exponent k (span r) }
{
    if shift_right(format.sign, format.fraction) <= k {
        return r;
    }
    let low = format.sign + 1 - shift_left(k + 1, format.fraction);
    Range {
        low: r.low.max(low),
        high: r.high,
    }
}

// The range without the values above zero of that size.
pub(crate) fn lower(format: Format, k: u64, r: Range) -> Range
    requires { Bounded format r }
    ensures { span result ≡ lowered format.fraction format.exponent k (span r) }
{
    reflect(format, raise(format, k, reflect(format, r)))
}
