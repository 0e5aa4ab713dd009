// The operand from which on the sum with a is at least b, without a search: twice the midpoint of b and the float below it, less twice a, is an exact difference; half of it, rounded up, is that operand, and where b is odd the midpoint itself is not enough.
ghost use Rattle.std.specs.Prelude.{◌≡◌, ◌*◌, ◌^◌, ◌<◌, ◌≤◌};
ghost use Rattle.arith.specs.Formats.{Finite};
ghost use Rattle.arith.specs.Exacts.{Fraction};
ghost use Rattle.arith.specs.Thresholds.{Crosses, doubled_of, halved_of, Threshold};

use crate::format::Format;
use crate::pattern::distance_from_zero;
use crate::sum::{Exact, Rounded, combine, scale};
use crate::words::{digits, dropped, shift_left, shift_right};

// An exact difference: whether it is below zero, and its size.
#[derive(Clone, Copy)]
pub(crate) struct Difference {
    pub(crate) negative: bool,
    pub(crate) size: Exact,
}

// In half units, with a half step added to one of the significands.
fn double(t: Exact, at_larger: u64, at_smaller: u64) -> Exact
    requires { (2 * t.larger < 2 ^ 63) × (2 * t.smaller < 2 ^ 63) × (at_larger ≤ 1) × (at_smaller ≤ 1) }
    ensures { result ≡ doubled_of at_larger at_smaller t }
{
    Exact {
        opposite: t.opposite,
        larger: 2 * t.larger + at_larger,
        smaller: 2 * t.smaller + at_smaller,
        gap: t.gap,
        shift: t.shift,
    }
}

// Twice the midpoint of b and the float below it, less twice a. The midpoint lies half a step beyond the one of the two that is nearer to zero.
fn crossing(format: Format, a: u64, b: u64) -> Difference
    requires { (Finite format a) × (Finite format b) }
    ensures { Crosses format a b result }
{
    let zero = format.sign;
    let fraction = format.fraction;
    let midpoint_negative = b <= zero;
    let minus_a_negative = zero < a;
    let opposite = midpoint_negative != minus_a_negative;
    let m = if midpoint_negative {
        zero - b
    } else {
        b - zero - 1
    };
    let n = distance_from_zero(format, a);
    if n <= m {
        return Difference {
            negative: midpoint_negative,
            size: double(combine(fraction, opposite, m, n), 1, 0),
        };
    }
    Difference {
        negative: minus_a_negative,
        size: double(combine(fraction, opposite, n, m), 0, 1),
    }
}

// Half of n * 2^shift units, rounded toward zero.
fn halve(fraction: u64, n: u64, shift: u64) -> Rounded
    requires { (Fraction fraction) × (shift * 2 ^ fraction ≤ 2 ^ 63) }
    ensures { result ≡ halved_of fraction (n * 2 ^ shift) }
{
    if n == 0 {
        return Rounded { m: 0, exact: true };
    }
    let size = digits(n) + shift;
    let drop = size.saturating_sub(fraction + 2);
    let base = shift_left(drop, fraction);
    if drop + 1 < shift {
        return Rounded {
            m: base + shift_left(n, shift - (drop + 1)),
            exact: true,
        };
    }
    let low = drop + 1 - shift;
    Rounded {
        m: base + shift_right(n, low),
        exact: dropped(n, low) == 0,
    }
}

// The least operand with a sum of at least b.
pub(crate) fn threshold(format: Format, a: u64, b: u64) -> u64
    requires { (Finite format a) × (Finite format b) }
    ensures { Threshold format a b result }
{
    let zero = format.sign;
    let fraction = format.fraction;
    let t = crossing(format, a, b);
    let size = t.size;
    let s = scale(fraction + 1, size);
    let r = halve(fraction, s.significand, s.shift);
    if t.negative {
        let up = if r.exact { b % 2 } else { 0 };
        return zero + up - r.m;
    }
    let up = if r.exact { b % 2 } else { 1 };
    zero + r.m + up
}
