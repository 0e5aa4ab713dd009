// The narrowing by a few sums of the machine, without a search, and nearly without a branch that is hard to foresee. Where these do not settle it, what they leave of x and a is handed on, for the exact way of `arith`. The width is a const parameter, so that the compiler makes each step without a test of it.
ghost use Rattle.std.specs.Prelude.{◌≡◌, ◌&&◌, true, leb};
ghost use Rattle.arith.specs.Formats.{is_finite, ordinal};
ghost use Rattle.arith.specs.Intervals.{ends_finite, range_of, is_ordered};
ghost use Rattle.arith.specs.Narrows.{written, narrow_in, narrow_of};
ghost use Rattle.machine.specs.Floats.{machine, is_number, ordinals, FitsWidth};
ghost use Rattle.machine.specs.Shortcuts.{Admitted, Trimmings, Gridded, Judges, Answers};

use crate::end::ends_of_b;
use crate::float::{at_most, canonical, finite_at, fits, opposite};
use crate::grid::{grid_step, passes};
use crate::guess::{Left, Pair, left_of, trim};
use crate::half_ulp::half_gap_below;
use arith::interval::Interval;
use arith::narrow::Narrowed;
use arith::refusal::{Reason, Refusal};

// x, a and b stay three arguments: each step takes others of them, and `arith` takes them so.
// Whether the two trims are corners, or there is no triple, or they are bounds alone.
#[derive(Clone, Copy)]
pub(crate) enum Verdict {
    Corners,
    None,
    Bounds,
}

// Whether three intervals of finite ends are in order.
fn in_order<const WIDE: bool>(x: Interval, a: Interval, b: Interval) -> bool
    requires { (ends_finite (machine WIDE) x ≡ true) × (ends_finite (machine WIDE) a ≡ true) × (ends_finite (machine WIDE) b ≡ true) }
    ensures { result ≡ true → (is_ordered (range_of (machine WIDE) x) ≡ true) × (is_ordered (range_of (machine WIDE) a) ≡ true) × (is_ordered (range_of (machine WIDE) b) ≡ true) }
{
    at_most::<WIDE>(x.low, x.high) & at_most::<WIDE>(a.low, a.high) & at_most::<WIDE>(b.low, b.high)
}

// Whether the ends have no bits beyond the width.
fn ends_fit<const WIDE: bool>(i: Interval) -> bool
    ensures { result ≡ true → (FitsWidth WIDE i.low) × (FitsWidth WIDE i.high) }
{
    fits::<WIDE>(i.low) & fits::<WIDE>(i.high)
}

// Whether such ends are finite.
fn ends_finite_at<const WIDE: bool>(i: Interval) -> bool
    requires { (FitsWidth WIDE i.low) × (FitsWidth WIDE i.high) }
    ensures { result ≡ ends_finite (machine WIDE) i }
{
    finite_at::<WIDE>(i.low) & finite_at::<WIDE>(i.high)
}

// Whether three intervals have finite ends.
fn all_finite<const WIDE: bool>(x: Interval, a: Interval, b: Interval) -> bool
    ensures { result ≡ true → (ends_finite (machine WIDE) x ≡ true) × (ends_finite (machine WIDE) a ≡ true) × (ends_finite (machine WIDE) b ≡ true) }
{
    if !(ends_fit::<WIDE>(x) & ends_fit::<WIDE>(a) & ends_fit::<WIDE>(b)) {
        return false;
    }
    ends_finite_at::<WIDE>(x) & ends_finite_at::<WIDE>(a) & ends_finite_at::<WIDE>(b)
}

// Whether three intervals have finite ends in order.
fn admitted<const WIDE: bool>(x: Interval, a: Interval, b: Interval) -> bool
    ensures { result ≡ true → Admitted (machine WIDE) x a b }
{
    if !all_finite::<WIDE>(x, a, b) {
        return false;
    }
    in_order::<WIDE>(x, a, b)
}

// Half the gaps beyond b's ends, with the sign set.
fn half_gaps<const WIDE: bool>(b: Interval) -> Interval
    requires { ends_finite (machine WIDE) b ≡ true }
    ensures { ends_finite (machine WIDE) result ≡ true }
{
    Interval {
        low: opposite::<WIDE>(half_gap_below::<WIDE>(b.low)),
        high: opposite::<WIDE>(half_gap_below::<WIDE>(opposite::<WIDE>(b.high))),
    }
}

// Whether a number is inside an interval.
fn within<const WIDE: bool>(s: u64, i: Interval) -> bool
    requires { (is_number (machine WIDE) s ≡ true) × (ends_finite (machine WIDE) i ≡ true) }
    ensures { result ≡ (leb (ordinal (machine WIDE) i.low) (ordinal (machine WIDE) s) && leb (ordinal (machine WIDE) s) (ordinal (machine WIDE) i.high)) }
{
    at_most::<WIDE>(i.low, s) & at_most::<WIDE>(s, i.high)
}

// What the two trims show.
fn judge<const WIDE: bool>(
    x: Interval,
    a: Interval,
    b: Interval,
    p: Pair,
    q: Pair,
    u: u64,
) -> Verdict
    requires { (Trimmings (machine WIDE) x a b p q) × (ends_finite (machine WIDE) b ≡ true) × (is_finite (machine WIDE) u ≡ true) × (Gridded (machine WIDE) p q u) }
    ensures { Judges (machine WIDE) x a b p q result }
{
    if !(at_most::<WIDE>(p.low, q.high) & at_most::<WIDE>(q.low, p.high)) {
        return Verdict::None;
    }
    if within::<WIDE>(p.sum, b) & within::<WIDE>(q.sum, b) {
        return Verdict::Corners;
    }
    if passes::<WIDE>(p.sum, u, b) {
        return Verdict::None;
    }
    if !passes::<WIDE>(q.sum, u, b) {
        return Verdict::Bounds;
    }
    Verdict::None
}

// The interval, each end in its one pattern.
fn canonical_ends<const WIDE: bool>(i: Interval) -> Interval
    requires { ends_finite (machine WIDE) i ≡ true }
    ensures { result ≡ written (machine WIDE) (ordinals (machine WIDE) i) }
{
    Interval {
        low: canonical::<WIDE>(i.low),
        high: canonical::<WIDE>(i.high),
    }
}

// The narrowing, if a few sums show it; else what they leave, with the same narrowing.
fn shortcut<const WIDE: bool>(
    x: Interval,
    a: Interval,
    b: Interval,
) -> Result<Result<Narrowed, Refusal>, Left>
    ensures { Answers (λ p q. narrow_in (machine WIDE) p q b) x a result }
{
    if !admitted::<WIDE>(x, a, b) {
        return Err(Left { x, a });
    }
    let h = half_gaps::<WIDE>(b);
    let p = trim::<WIDE>(x.low, a.high, b, h);
    let q = trim::<WIDE>(a.low, x.high, b, h);
    if !(p.sure & q.sure) {
        return Err(Left { x, a }); // a trim that is not sure
    }
    let u = grid_step::<WIDE>(p, q);
    match judge::<WIDE>(x, a, b, p, q, u) {
        Verdict::None => Ok(Err(Refusal::from(Reason::NoTriple))),
        Verdict::Bounds => Err(left_of(p, q)),
        Verdict::Corners => {
            let left = left_of(p, q);
            let Some(ends) = ends_of_b::<WIDE>(p, q, u, b) else {
                return Err(left);
            };
            Ok(Ok(Narrowed {
                x: canonical_ends::<WIDE>(left.x),
                a: canonical_ends::<WIDE>(left.a),
                b: canonical_ends::<WIDE>(ends),
            }))
        }
    }
}

// The narrowing, if a few sums show it; at a width whose floats the machine has not, x and a are left as they are.
pub(crate) fn shortcut_at(
    width: u64,
    x: Interval,
    a: Interval,
    b: Interval,
) -> Result<Result<Narrowed, Refusal>, Left>
    ensures { Answers (λ p q. narrow_of width p q b) x a result }
{
    match width {
        64 => shortcut::<true>(x, a, b),
        32 => shortcut::<false>(x, a, b),
        _ => Err(Left { x, a }),
    }
}
