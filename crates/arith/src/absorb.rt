// A range stays beside its format, since most functions take a third number that belongs to both. x (+) a = x: how much an x absorbs, how much the x of a range do, and the least and the greatest x of a range that absorb one a. An x absorbs up to half the step after it; of a range an end or the number next to it decides, else the place from which on the step is coarse enough.
ghost use Rattle.std.specs.Prelude.{◌≡◌, ◌+◌, ◌-◌, ◌<◌, ◌≤◌, min, max};
ghost use Rattle.ladder.specs.Absorption.{step_place, Coarse};
ghost use Rattle.arith.specs.Searches.{LeastOf, GreatestOf};
ghost use Rattle.arith.specs.PairSearches.{FiniteAt, Filled, absorbs, AbsorbsTo, AbsorbedTo, Absorber, FromZero, Nonzero, Sought, LowMisses, HighMisses};

use crate::format::Format;
use crate::range::Range;
use crate::remainder::encode;
use crate::sum::decode;
use crate::words::{digits, shift_left, shift_right};

// Of an ordinal and the one after it, the place nearer to zero.
fn step_place(format: Format, x: u64) -> u64
    ensures { result ≡ step_place format.fraction format.exponent x }
{
    if x < format.sign {
        return format.sign - 1 - x;
    }
    x - format.sign
}

// The greatest ordinal that x absorbs: half the step after x, less one place where x is odd, since a tie goes to even; zero where the step is one unit.
fn absorbs_to(format: Format, x: u64) -> u64
    requires { FiniteAt format x }
    ensures { AbsorbsTo format x result }
{
    let field = shift_right(step_place(format, x), format.fraction);
    if field < 2 {
        return format.sign;
    }
    format.sign + (encode(format.fraction, 1, field - 2) - x % 2)
}

// The number after a range's low end, or its high end where there is none.
fn after_low(format: Format, x: Range) -> u64
    requires { Filled format x }
    ensures { result ≡ min (x.low + 1) x.high }
{
    (x.low + 1).min(x.high)
}

// The number before a range's high end, or its low end where there is none.
fn before_high(format: Format, x: Range) -> u64
    requires { Filled format x }
    ensures { result ≡ max (x.high - 1) x.low }
{
    (x.high - 1).max(x.low)
}

// The greatest ordinal that some x of a range from zero up absorbs: its greatest even number decides, or the one number that it has.
fn absorbed_above(format: Format, x: Range) -> u64
    requires { (Filled format x) × (format.sign ≤ x.low) }
    ensures { AbsorbedTo format x result }
{
    absorbs_to(format, (x.high - x.high % 2).max(x.low))
}

// The same of a range below zero: its low end decides, or the number after it.
fn absorbed_below(format: Format, x: Range) -> u64
    requires { (Filled format x) × (x.high < format.sign) }
    ensures { AbsorbedTo format x result }
{
    let first = absorbs_to(format, x.low);
    first.max(absorbs_to(format, after_low(format, x)))
}

// The same of any range.
pub(crate) fn absorbed_to(format: Format, x: Range) -> u64
    requires { Filled format x }
    ensures { AbsorbedTo format x result }
{
    let zero = format.sign;
    if zero <= x.low {
        return absorbed_above(format, x);
    }
    if x.high < zero {
        return absorbed_below(format, x);
    }
    let below = Range {
        low: x.low,
        high: zero - 1,
    };
    let above = Range {
        low: zero,
        high: x.high,
    };
    absorbed_below(format, below).max(absorbed_above(format, above))
}

// Whether x absorbs c, for c from zero up.
fn absorbing(format: Format, x: u64, c: u64) -> bool
    requires { FromZero format x c }
    ensures { result ≡ absorbs format x c }
{
    c <= absorbs_to(format, x)
}

// The least place with a step of at least twice the value of m.
fn coarse(format: Format, m: u64) -> u64
    requires { Nonzero format m }
    ensures { Coarse format.fraction m result }
{
    let fraction = format.fraction;
    let p = decode(fraction, m);
    let n = digits(p.significand - 1);
    (m - p.significand) + shift_left(n + 2, fraction)
}

// The least x of the range that absorbs c, where neither the low end nor the number after it does: the place above zero with a coarse enough step.
fn least_far(format: Format, c: u64, x: Range) -> Option<u64>
    requires { LowMisses format c x }
    ensures { LeastOf (Absorber format c x) result }
{
    let t = coarse(format, c - format.sign);
    if format.infinity <= t {
        return None;
    }
    let far = format.sign + t;
    if !(x.low..=x.high).contains(&far) {
        return None;
    }
    Some(far)
}

// The least x of the range that absorbs c, for c above zero.
pub(crate) fn least_absorber(format: Format, c: u64, x: Range) -> Option<u64>
    requires { Sought format c x }
    ensures { LeastOf (Absorber format c x) result }
{
    if absorbing(format, x.low, c) {
        return Some(x.low);
    }
    let next = after_low(format, x);
    if absorbing(format, next, c) {
        return Some(next);
    }
    least_far(format, c, x)
}

// The greatest x of the range that absorbs c, where neither the high end nor the number before it does: the place below zero with a coarse enough step, or the one next to it.
fn greatest_far(format: Format, c: u64, x: Range) -> Option<u64>
    requires { HighMisses format c x }
    ensures { GreatestOf (Absorber format c x) result }
{
    let t = coarse(format, c - format.sign);
    if format.infinity <= t {
        return None;
    }
    let far = format.sign - (t + 1);
    if !(x.low..=x.high).contains(&far) {
        return None;
    }
    if absorbing(format, far, c) {
        return Some(far);
    }
    if far <= x.low {
        return None;
    }
    Some(far - 1)
}

// The greatest x of the range that absorbs c, for c above zero.
pub(crate) fn greatest_absorber(format: Format, c: u64, x: Range) -> Option<u64>
    requires { Sought format c x }
    ensures { GreatestOf (Absorber format c x) result }
{
    if absorbing(format, x.high, c) {
        return Some(x.high);
    }
    let next = before_high(format, x);
    if absorbing(format, next, c) {
        return Some(next);
    }
    greatest_far(format, c, x)
}
