// The ends of b by a few sums: the sum of the low ends, a sum below which the grid has none that reaches b, or b's own end where one more sum makes it. Where these do not settle it, that is said.
ghost use Rattle.std.specs.Prelude.{◌≡◌, true, false, ◌≤◌};
ghost use Rattle.std.specs.Option.{ForSome};
ghost use Rattle.arith.specs.Formats.{is_finite, ordinal};
ghost use Rattle.arith.specs.Intervals.{ends_finite};
ghost use Rattle.machine.specs.Floats.{machine, is_number};
ghost use Rattle.machine.specs.Shortcuts.{CornersOf, KnownEnd, LowEnd, HighEnd, EndsOfB, Reached, Mirrors};

use crate::float::{add, at_most, greater, lesser, opposite};
use crate::guess::{Left, Pair, left_of};
use arith::interval::Interval;
use std::hint::select_unpredictable;

// An end of b, and whether it is known; else it is b's own. A flag: that end is used as well, and with an Option a pass of sums takes 1.2 of the time.
#[derive(Clone, Copy)]
pub(crate) struct End {
    pub(crate) b: u64,
    pub(crate) known: bool,
}

// The low end, by the sum of the low ends and a sum k that stands in a triple.
fn least_end<const WIDE: bool>(low: u64, k: u64, u: u64, b: u64) -> End
    requires { (is_number (machine WIDE) low ≡ true) × (is_finite (machine WIDE) k ≡ true) × (is_finite (machine WIDE) u ≡ true) × (is_finite (machine WIDE) b ≡ true) × (ordinal (machine WIDE) low ≤ ordinal (machine WIDE) k) × (ordinal (machine WIDE) b ≤ ordinal (machine WIDE) k) }
    ensures { KnownEnd (machine WIDE) low k u b result }
{
    let gap = !at_most::<WIDE>(b, add::<WIDE>(k, opposite::<WIDE>(u)));
    let known = at_most::<WIDE>(b, low) | at_most::<WIDE>(k, b) | gap;
    let end = greater::<WIDE>(select_unpredictable(gap, k, b), low);
    End { b: end, known }
}

// Whether c makes b with the rounded difference b less c, held inside i. False says nothing.
fn reaches<const WIDE: bool>(c: u64, i: Interval, b: u64) -> bool
    requires { (is_finite (machine WIDE) c ≡ true) × (ends_finite (machine WIDE) i ≡ true) × (is_finite (machine WIDE) b ≡ true) × (ordinal (machine WIDE) i.low ≤ ordinal (machine WIDE) i.high) }
    ensures { result ≡ true → Reached (machine WIDE) i (record { low = c; high = c }) b }
{
    let y = lesser::<WIDE>(
        greater::<WIDE>(add::<WIDE>(b, opposite::<WIDE>(c)), i.low),
        i.high,
    );
    let s = add::<WIDE>(y, c);
    at_most::<WIDE>(s, b) & at_most::<WIDE>(b, s)
}

// The same with the low end of x, or of a, and the other interval.
fn witness<const WIDE: bool>(x: Interval, a: Interval, b: u64) -> bool
    requires { (ends_finite (machine WIDE) x ≡ true) × (ends_finite (machine WIDE) a ≡ true) × (is_finite (machine WIDE) b ≡ true) × (ordinal (machine WIDE) x.low ≤ ordinal (machine WIDE) x.high) × (ordinal (machine WIDE) a.low ≤ ordinal (machine WIDE) a.high) }
    ensures { result ≡ true → Reached (machine WIDE) x a b }
{
    if reaches::<WIDE>(x.low, a, b) {
        return true;
    }
    reaches::<WIDE>(a.low, x, b)
}

// From the opposite of the high end to that of the low end.
fn mirror<const WIDE: bool>(i: Interval) -> Interval
    requires { ends_finite (machine WIDE) i ≡ true }
    ensures { Mirrors (machine WIDE) i result }
{
    Interval {
        low: opposite::<WIDE>(i.high),
        high: opposite::<WIDE>(i.low),
    }
}

// The low end of the b in a triple, by the corners p and q and the grid of u: four arguments, since one call makes them and these two take them apart.
fn low_end<const WIDE: bool>(p: Pair, q: Pair, u: u64, b: Interval) -> End
    requires { CornersOf (machine WIDE) p q u b }
    ensures { LowEnd (machine WIDE) p q b result }
{
    least_end::<WIDE>(
        add::<WIDE>(p.low, q.low),
        lesser::<WIDE>(p.sum, q.sum),
        u,
        b.low,
    )
}

// The high end: the mirror image of a low end.
fn high_end<const WIDE: bool>(p: Pair, q: Pair, u: u64, b: Interval) -> End
    requires { CornersOf (machine WIDE) p q u b }
    ensures { HighEnd (machine WIDE) p q b result }
{
    let t = least_end::<WIDE>(
        opposite::<WIDE>(add::<WIDE>(q.high, p.high)),
        opposite::<WIDE>(greater::<WIDE>(q.sum, p.sum)),
        u,
        opposite::<WIDE>(b.high),
    );
    End {
        b: opposite::<WIDE>(t.b),
        known: t.known,
    }
}

// Whether each end of b that is not known (low and high say which are) is the sum of two numbers that are left. False says nothing.
fn attained<const WIDE: bool>(low: bool, high: bool, left: Left, b: Interval) -> bool
    requires { (ends_finite (machine WIDE) left.x ≡ true) × (ends_finite (machine WIDE) left.a ≡ true) × (ends_finite (machine WIDE) b ≡ true) × (ordinal (machine WIDE) left.x.low ≤ ordinal (machine WIDE) left.x.high) × (ordinal (machine WIDE) left.a.low ≤ ordinal (machine WIDE) left.a.high) }
    ensures { result ≡ true → (low ≡ false → Reached (machine WIDE) left.x left.a b.low) × (high ≡ false → Reached (machine WIDE) left.x left.a b.high) }
{
    if !low && !witness::<WIDE>(left.x, left.a, b.low) {
        return false;
    }
    high || witness::<WIDE>(
        mirror::<WIDE>(left.x),
        mirror::<WIDE>(left.a),
        opposite::<WIDE>(b.high),
    )
}

// The ends of the b in a triple, if a few sums show both; where one is not known, b's own. None says nothing.
pub(crate) fn ends_of_b<const WIDE: bool>(p: Pair, q: Pair, u: u64, b: Interval) -> Option<Interval>
    requires { CornersOf (machine WIDE) p q u b }
    ensures { ForSome result (EndsOfB (machine WIDE) p q b) }
{
    let low = low_end::<WIDE>(p, q, u, b);
    let high = high_end::<WIDE>(p, q, u, b);
    if !(low.known & high.known) {
        if !attained::<WIDE>(low.known, high.known, left_of(p, q), b) {
            return None;
        }
    }
    Some(Interval {
        low: low.b,
        high: high.b,
    })
}
