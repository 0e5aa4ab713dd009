// The corner of the triples: the least x and the greatest a in a triple stand in one together. The walk to it begins at x's low and a's high end; x goes up where the sum falls short of b, and a comes down where it is past b. There is no loop: the clamp leaves two turns at most.
ghost use Rattle.std.specs.Prelude.{◌<◌, ◌≤◌};
ghost use Rattle.arith.specs.Formats.{sum};
ghost use Rattle.arith.specs.Searches.{CornerOf, InOrder, Fine, SameTriples};

use crate::clamp::{granularity, lower, raise};
use crate::operand::{greatest_operand, least_operand};
use crate::ranges::Ranges;
use crate::sum::sum_of;

// The triple with the least x and the greatest a.
#[derive(Clone, Copy)]
pub(crate) struct Corner {
    pub(crate) x: u64,
    pub(crate) a: u64,
    pub(crate) b: u64,
}

// The corner where the sum of x's low and a's high end falls short of b: x goes up, and if that is past b, a comes down.
fn climb(r: &Ranges) -> Option<Corner>
    requires { (r.now.x.low ≤ r.now.x.high) × (r.now.a.low ≤ r.now.a.high) × (Fine r.now) × (sum r.now.format r.now.x.low r.now.a.high < r.now.b.low) }
    ensures { CornerOf r.now result }
{
    let p = least_operand(r.format, r.a.high, r.b.low, r.x)?;
    let s = sum_of(r.format, p, r.a.high);
    if s <= r.b.high {
        return Some(Corner {
            x: p,
            a: r.a.high,
            b: s,
        });
    }
    let q = greatest_operand(r.format, p, r.b.high, r.a)?;
    Some(Corner {
        x: p,
        a: q,
        b: sum_of(r.format, p, q),
    })
}

// Where it is past b: a comes down, and if that falls short of b, x goes up.
fn descend(r: &Ranges) -> Option<Corner>
    requires { (r.now.x.low ≤ r.now.x.high) × (r.now.a.low ≤ r.now.a.high) × (Fine r.now) × (r.now.b.high < sum r.now.format r.now.x.low r.now.a.high) }
    ensures { CornerOf r.now result }
{
    let q = greatest_operand(r.format, r.x.low, r.b.high, r.a)?;
    let s = sum_of(r.format, r.x.low, q);
    if r.b.low <= s {
        return Some(Corner {
            x: r.x.low,
            a: q,
            b: s,
        });
    }
    let p = least_operand(r.format, q, r.b.low, r.x)?;
    Some(Corner {
        x: p,
        a: q,
        b: sum_of(r.format, p, q),
    })
}

// The corner of operands with nothing too coarse for b: two turns are enough.
fn walk(r: &Ranges) -> Option<Corner>
    requires { Fine r.now }
    ensures { CornerOf r.now result }
{
    if r.x.high < r.x.low || r.a.high < r.a.low {
        return None;
    }
    let s = sum_of(r.format, r.x.low, r.a.high);
    if s < r.b.low {
        return climb(r);
    }
    if r.b.high < s {
        return descend(r);
    }
    Some(Corner {
        x: r.x.low,
        a: r.a.high,
        b: s,
    })
}

// The ranges without what of the operands is too coarse for b, where zero is not in b: no triple is lost.
fn clamp(r: &Ranges) -> Ranges
    requires { r.now.b.low ≤ r.now.b.high }
    ensures { SameTriples r.now result }
{
    let zero = r.format.sign;
    let fraction = r.format.fraction;
    if zero < r.b.low {
        let k = granularity(fraction, r.b.low - zero, r.b.high - zero);
        return r.with_operands(raise(r.format, k, r.x), raise(r.format, k, r.a));
    }
    if r.b.high < zero {
        let k = granularity(fraction, zero - r.b.high, zero - r.b.low);
        return r.with_operands(lower(r.format, k, r.x), lower(r.format, k, r.a));
    }
    *r
}

// The corner by the clamp and the walk.
#[tactic(auto, using(crate::proofs::Bounds::same_corner))]
pub(crate) fn clamped_corner(r: &Ranges) -> Option<Corner>
    requires { r.now.b.low ≤ r.now.b.high }
    ensures { CornerOf r.now result }
{
    walk(&clamp(r))
}

// The corner: x's low and a's high end where these make a triple, else by the walk.
pub(crate) fn corner_of(r: &Ranges) -> Option<Corner>
    requires { InOrder r.now }
    ensures { CornerOf r.now result }
{
    let s = sum_of(r.format, r.x.low, r.a.high);
    if (r.b.low..=r.b.high).contains(&s) {
        return Some(Corner {
            x: r.x.low,
            a: r.a.high,
            b: s,
        });
    }
    clamped_corner(r)
}
