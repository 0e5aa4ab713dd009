// The narrowing of one sum: for x, a and b the least and greatest value standing in a triple.
ghost use Rattle.std.specs.Prelude.{◌≡◌};
ghost use Rattle.arith.specs.Searches.{InOrder, NarrowedTo};
ghost use Rattle.arith.specs.Narrows.{narrowing, narrow_answer, narrow_finite, narrow_in, narrow_of};
ghost use Rattle.arith.specs.Answers.{narrowed_told};
ghost use Rattle.arith.specs.Replies.{reply_after, narrow_tests, narrow_values};

use crate::corner::corner_of;
use crate::extent::extent_b;
use crate::format::Format;
use crate::interval::{Interval, ends_finite, interval_of, range_of};
use crate::range::{Range, ordered};
use crate::ranges::Ranges;
use crate::refusal::{Reason, Refusal};

// The three intervals narrowed.
#[derive(Clone, Copy, PartialEq, Eq)]
pub struct Narrowed {
    pub x: Interval,
    pub a: Interval,
    pub b: Interval,
}

// The narrowing of ranges: two corners are that of x and a, and b's is over what these are narrowed to.
fn narrow_ranges(r: &Ranges) -> Option<Ranges>
    requires { InOrder r.now }
    ensures { NarrowedTo r.now result }
{
    let p = corner_of(r)?;
    let q = corner_of(&r.swapped())?;
    let x = Range {
        low: p.x,
        high: q.a,
    };
    let a = Range {
        low: q.x,
        high: p.a,
    };
    let n = r.with_operands(x, a);
    Some(n.with_b(extent_b(&n, p.b, q.b)))
}

// The answer for three ranges that hold something.
fn narrow_ordered(r: &Ranges) -> Result<Narrowed, Refusal>
    requires { InOrder r.now }
    ensures { result ≡ narrow_answer r.now.format (narrowing r.now.format r.now.x r.now.a r.now.b) }
{
    let n = narrow_ranges(r).ok_or(Reason::NoTriple)?;
    Ok(Narrowed {
        x: interval_of(n.format, n.x),
        a: interval_of(n.format, n.a),
        b: interval_of(n.format, n.b),
    })
}

// The answer for three ranges of finite ordinals; refusals 3 for x, a, b, then 11.
#[tactic(auto, unfolding(crate::specs::Narrows::narrow_finite, crate::specs::Intervals::is_ordered))]
fn narrow_finite(r: &Ranges) -> Result<Narrowed, Refusal>
    ensures { result ≡ narrow_finite r.now.format r.now.x r.now.a r.now.b }
{
    Reason::Reversed.unless(ordered(r.x))?;
    Reason::Reversed.unless(ordered(r.a))?;
    Reason::Reversed.unless(ordered(r.b))?;
    narrow_ordered(r)
}

// The answer in a format; refusals 2 for x, a, b, then 3 and 11.
#[tactic(auto, unfolding(crate::specs::Narrows::narrow_in))]
fn narrow_in(format: Format, x: Interval, a: Interval, b: Interval) -> Result<Narrowed, Refusal>
    ensures { result ≡ narrow_in format x a b }
{
    Reason::NotFinite.unless(ends_finite(format, x))?;
    Reason::NotFinite.unless(ends_finite(format, a))?;
    Reason::NotFinite.unless(ends_finite(format, b))?;
    narrow_finite(&Ranges {
        format,
        x: range_of(format, x),
        a: range_of(format, a),
        b: range_of(format, b),
    })
}

// The ends of x, a and b that stand in triples; refusals 1, 2 for x, a, b, 3 for x, a, b, 11, in this order.
#[tactic(auto, unfolding(crate::specs::Narrows::narrow_of), using(crate::proofs::Replies::narrow_reply))]
pub fn narrow(width: u64, x: Interval, a: Interval, b: Interval) -> Result<Narrowed, Refusal>
    ensures value { result ≡ narrow_of width x a b }
    ensures reply { narrowed_told result ≡ reply_after (narrow_tests width x a b) (narrow_values width x a b) }
{
    narrow_in(Format::try_from(width)?, x, a, b)
}
