// The least operand with a sum of at least b, and its mirror image, the greatest with a sum of at most b.
ghost use Rattle.arith.specs.Formats.{Finite};
ghost use Rattle.arith.specs.Intervals.{Bounded};
ghost use Rattle.arith.specs.Searches.{LeastOf, GreatestOf, Attains, Stays};

use crate::format::Format;
use crate::range::{Range, mirror_of, reflect};
use crate::threshold::threshold;

// The least x of the range with a sum of at least b.
pub(crate) fn least_operand(format: Format, a: u64, b: u64, r: Range) -> Option<u64>
    requires { (Finite format a) × (Finite format b) × (Bounded format r) }
    ensures { LeastOf (Attains format a b r) result }
{
    if r.high < r.low {
        return None;
    }
    let x = threshold(format, a, b);
    if r.high < x {
        return None;
    }
    Some(x.max(r.low))
}

// The greatest x of the range with a sum of at most b.
pub(crate) fn greatest_operand(format: Format, a: u64, b: u64, r: Range) -> Option<u64>
    requires { (Finite format a) × (Finite format b) × (Bounded format r) }
    ensures { GreatestOf (Stays format a b r) result }
{
    let m = least_operand(
        format,
        mirror_of(format, a),
        mirror_of(format, b),
        reflect(format, r),
    )?;
    Some(mirror_of(format, m))
}
