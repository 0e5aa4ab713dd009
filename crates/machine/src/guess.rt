// The least operand by a guess: mostly a difference of floats is it or the float before it, and two sums show which. Nothing of the guess needs a proof; where the sums do not show it, that is said.
ghost use Rattle.std.specs.Prelude.{◌≡◌, true, ◌≤◌};
ghost use Rattle.arith.specs.Formats.{is_finite, ordinal};
ghost use Rattle.arith.specs.Intervals.{ends_finite};
ghost use Rattle.machine.specs.Floats.{machine, is_number};
ghost use Rattle.machine.specs.Shortcuts.{left_of, Checks, Trims};

use crate::float::{add, at_most, below, format_at, opposite, size};
use arith::interval::Interval;
use std::hint::select_unpredictable;

// An operand, and whether it is surely the least. A flag: with an Option here and in Pair a narrowing takes up to 1.19 of the time.
#[derive(Clone, Copy)]
pub(crate) struct Checked {
    pub(crate) y: u64,
    pub(crate) sure: bool,
}

// The low end of one operand, the high end of the other and their sum, and whether both are surely bounds. A flag, as in Checked.
#[derive(Clone, Copy)]
pub(crate) struct Pair {
    pub(crate) low: u64,
    pub(crate) high: u64,
    pub(crate) sum: u64,
    pub(crate) sure: bool,
}

// What two trims leave of x and a.
#[derive(Clone, Copy)]
pub(crate) struct Left {
    pub(crate) x: Interval,
    pub(crate) a: Interval,
}

// What p, which trims x's low and a's high end, and q, which trims the others, leave.
pub(crate) fn left_of(p: Pair, q: Pair) -> Left
    ensures { result ≡ left_of p q }
{
    Left {
        x: Interval {
            low: p.low,
            high: q.high,
        },
        a: Interval {
            low: q.low,
            high: p.high,
        },
    }
}

// The least y with a sum with p of at least q, if that is c or the number after c. Where c is zero, the largest float of either sign or an infinity, 1 stands in for it and nothing is sure.
fn check<const WIDE: bool>(c: u64, p: u64, q: u64) -> Checked
    requires { (is_number (machine WIDE) c ≡ true) × (is_finite (machine WIDE) p ≡ true) × (is_finite (machine WIDE) q ≡ true) }
    ensures { Checks (machine WIDE) p q result }
{
    let format = format_at::<WIDE>();
    let m = size::<WIDE>(c);
    let inner = (m != 0) & (m < format.infinity - 1);
    let d = select_unpredictable(inner, c, 1);
    let positive = d < format.sign;
    let after = select_unpredictable(positive, d + 1, d - 1);
    let before = select_unpredictable(positive, d - 1, d + 1);
    let enough = at_most::<WIDE>(q, add::<WIDE>(c, p));
    let other = select_unpredictable(enough, before, after);
    let reaches = at_most::<WIDE>(q, add::<WIDE>(other, p));
    Checked {
        y: select_unpredictable(enough, d, after),
        sure: inner & (reaches != enough),
    }
}

// From the low end x of one operand and the high end a of the other: where their sum falls short of b, x goes up, and where it is past b, a comes down. h has half the gap below b's low end and half the gap above its high end, both with the sign set.
pub(crate) fn trim<const WIDE: bool>(x: u64, a: u64, b: Interval, h: Interval) -> Pair
    requires { (is_finite (machine WIDE) x ≡ true) × (is_finite (machine WIDE) a ≡ true) × (ends_finite (machine WIDE) b ≡ true) × (ends_finite (machine WIDE) h ≡ true) × (ordinal (machine WIDE) b.low ≤ ordinal (machine WIDE) b.high) }
    ensures { result.sure ≡ true → Trims (machine WIDE) x a b result }
{
    let s = add::<WIDE>(x, a);
    let short = !at_most::<WIDE>(b.low, s);
    let past = !at_most::<WIDE>(s, b.high);
    let minus_x = opposite::<WIDE>(x);
    let minus_b = opposite::<WIDE>(b.high);
    let up = add::<WIDE>(add::<WIDE>(b.low, opposite::<WIDE>(a)), h.low);
    let down = add::<WIDE>(add::<WIDE>(x, minus_b), h.high);
    // a comparison of its own: the compiler then makes no branch of it
    let guess = select_unpredictable(below::<WIDE>(s, b.low), up, down);
    let t = check::<WIDE>(
        guess,
        select_unpredictable(short, a, minus_x),
        select_unpredictable(short, b.low, minus_b),
    );
    let low = select_unpredictable(short, t.y, x);
    let high = select_unpredictable(past, opposite::<WIDE>(t.y), a);
    Pair {
        low,
        high,
        sum: add::<WIDE>(low, high),
        sure: t.sure | (short == past),
    }
}
