// The grid of the sums: operands of opposite signs that are far from zero are multiples of a power of two, and so are their sums. A stretch between two such multiples holds none.
ghost use Rattle.std.specs.Prelude.{◌≡◌, true, ◌+◌, ◌^◌, ◌<◌, min};
ghost use Rattle.arith.specs.Formats.{is_finite};
ghost use Rattle.arith.specs.Intervals.{ends_finite};
ghost use Rattle.machine.specs.Floats.{machine, is_number, HalfUlp};
ghost use Rattle.machine.specs.Shortcuts.{Summed, Gridded, Passes};

use crate::float::{add, at_most, finite_at, format_at, opposite, size};
use crate::guess::Pair;
use crate::half_ulp::half_ulp;
use arith::interval::Interval;
use std::hint::select_unpredictable;

// An ulp of the smaller of two sizes, which is half an ulp one binade up.
fn least_ulp<const WIDE: bool>(m: u64, n: u64) -> u64
    requires { (m < (machine WIDE).infinity) × (n < (machine WIDE).infinity) }
    ensures { HalfUlp (machine WIDE) (min m n + 2 ^ (machine WIDE).fraction) result }
{
    let format = format_at::<WIDE>();
    let binade = format.sign - format.infinity;
    half_ulp::<WIDE>(m.min(n) + binade)
}

// An ulp of the end nearest zero, where the operands that p and q leave have opposite signs and that end is normal; else 0.
pub(crate) fn grid_step<const WIDE: bool>(p: Pair, q: Pair) -> u64
    requires { (Summed (machine WIDE) p) × (Summed (machine WIDE) q) }
    ensures { (is_finite (machine WIDE) result ≡ true) × (Gridded (machine WIDE) p q result) }
{
    let format = format_at::<WIDE>();
    let first = p.low < format.sign;
    let plus = select_unpredictable(first, p.low, q.low);
    let minus = select_unpredictable(first, p.high, q.high);
    let u = least_ulp::<WIDE>(size::<WIDE>(plus), size::<WIDE>(minus));
    select_unpredictable((plus < format.sign) & (format.sign <= minus), u, 0)
}

// Whether a sum s that is not inside b shows, on the grid of u, that none is.
pub(crate) fn passes<const WIDE: bool>(s: u64, u: u64, b: Interval) -> bool
    requires { (is_number (machine WIDE) s ≡ true) × (is_finite (machine WIDE) u ≡ true) × (ends_finite (machine WIDE) b ≡ true) }
    ensures { result ≡ true → Passes (machine WIDE) s u b }
{
    if !finite_at::<WIDE>(s) {
        return false;
    }
    if !at_most::<WIDE>(s, b.high) {
        return !at_most::<WIDE>(b.low, add::<WIDE>(s, opposite::<WIDE>(u)));
    }
    if !at_most::<WIDE>(b.low, s) {
        return !at_most::<WIDE>(add::<WIDE>(s, u), b.high);
    }
    false
}
