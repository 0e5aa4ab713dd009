// The narrowing of a sum with one float in two places: x (+) x = b, and x (+) a = x. For each of the two floats the least and greatest value that makes such a sum.
ghost use Rattle.std.specs.Prelude.{◌≡◌};
ghost use Rattle.arith.specs.Repeats.{doubling, absorbing, pair_answer, pair_in, pair_of};
ghost use Rattle.arith.specs.PairSearches.{PairTest, relation_of, Couples, BothFilled, coupled, FiniteEnds, Around, Above, Below};
ghost use Rattle.arith.specs.Answers.{paired_told};
ghost use Rattle.arith.specs.Replies.{pair_reply};

use crate::absorb::{absorbed_to, greatest_absorber, least_absorber};
use crate::format::Format;
use crate::half::{double, half_down, half_up};
use crate::interval::{Interval, ends_finite, interval_of, range_of};
use crate::range::{Range, mirror_of, ordered, reflect, shared};
use crate::refusal::{Reason, Refusal};

// The two intervals narrowed.
#[derive(Clone, Copy, PartialEq, Eq)]
pub struct Paired {
    pub p: Interval,
    pub q: Interval,
}

// The two ranges narrowed.
#[derive(Clone, Copy)]
pub(crate) struct Couple {
    pub(crate) p: Range,
    pub(crate) q: Range,
}

// The narrowing of ranges by x (+) x = b: doubling keeps the order, so x is cut to the halves of b, and the ends of b are the doubles of the ends of x.
fn double_ranges(format: Format, x: Range, b: Range) -> Option<Couple>
    requires { BothFilled format x b }
    ensures { coupled result ≡ doubling format x b }
{
    let half = Range {
        low: half_up(format, b.low),
        high: half_down(format, b.high),
    };
    let cut = shared(x, half);
    if !ordered(cut) {
        return None;
    }
    Some(Couple {
        p: cut,
        q: Range {
            low: double(format, cut.low),
            high: double(format, cut.high),
        },
    })
}

// The narrowing of ranges by x (+) a = x, for zero inside a: every x stays. The least a is the mirror image of the greatest of the mirrored ranges.
fn absorb_around(format: Format, x: Range, a: Range) -> Option<Couple>
    requires { Around format x a }
    ensures { coupled result ≡ absorbing format x a }
{
    let high = a.high.min(absorbed_to(format, x));
    let mirror = reflect(format, a);
    let low = mirror.high.min(absorbed_to(format, reflect(format, x)));
    Some(Couple {
        p: x,
        q: Range {
            low: mirror_of(format, low),
            high,
        },
    })
}

// The same for a above zero: the x that absorb the least a.
fn absorb_above(format: Format, x: Range, a: Range) -> Option<Couple>
    requires { Above format x a }
    ensures { coupled result ≡ absorbing format x a }
{
    let most = absorbed_to(format, x);
    if most < a.low {
        return None;
    }
    let low = least_absorber(format, a.low, x)?;
    let high = greatest_absorber(format, a.low, x)?;
    Some(Couple {
        p: Range { low, high },
        q: Range {
            low: a.low,
            high: a.high.min(most),
        },
    })
}

// The same for a below zero, in the mirror.
fn absorb_below(format: Format, x: Range, a: Range) -> Option<Couple>
    requires { Below format x a }
    ensures { coupled result ≡ absorbing format x a }
{
    let mirror = absorb_above(format, reflect(format, x), reflect(format, a))?;
    Some(Couple {
        p: reflect(format, mirror.p),
        q: reflect(format, mirror.q),
    })
}

// The narrowing of ranges by x (+) a = x.
fn absorb_ranges(format: Format, x: Range, a: Range) -> Option<Couple>
    requires { BothFilled format x a }
    ensures { coupled result ≡ absorbing format x a }
{
    if a.high < format.sign {
        return absorb_below(format, x, a);
    }
    if format.sign < a.low {
        return absorb_above(format, x, a);
    }
    absorb_around(format, x, a)
}

// The answer for two ranges narrowed; refusal 11.
fn pair_answer(format: Format, c: Option<Couple>) -> Result<Paired, Refusal>
    requires { FiniteEnds format c }
    ensures { result ≡ pair_answer format (coupled c) }
{
    let c = c.ok_or(Reason::NoTriple)?;
    Ok(Paired {
        p: interval_of(format, c.p),
        q: interval_of(format, c.q),
    })
}

// The answer in a format, by the step that narrows two ranges; refusals 2 for the first, the second, 3 for the first, the second, 11.
#[tactic(auto, unfolding(crate::specs::Repeats::pair_in), using(crate::proofs::Repeating::filled, crate::proofs::Repeating::both_finite_lem))]
fn pair_in<F: FnOnce(Format, Range, Range) -> Option<Couple>>(
    format: Format,
    couple: F,
    i: Interval,
    j: Interval,
) -> Result<Paired, Refusal>
    ghost test: { PairTest }
    requires couples { Couples (F.pre couple) (F.post couple) test }
    ensures { result ≡ pair_in (relation_of test) format i j }
{
    Reason::NotFinite.unless(ends_finite(format, i))?;
    Reason::NotFinite.unless(ends_finite(format, j))?;
    let p = range_of(format, i);
    Reason::Reversed.unless(ordered(p))?;
    let q = range_of(format, j);
    Reason::Reversed.unless(ordered(q))?;
    pair_answer(format, couple(format, p, q))
}

// The answer at a width; refusal 1, then the same.
#[tactic(auto, unfolding(crate::specs::Repeats::pair_of))]
fn narrow_pair<F: FnOnce(Format, Range, Range) -> Option<Couple>>(
    width: u64,
    couple: F,
    i: Interval,
    j: Interval,
) -> Result<Paired, Refusal>
    ghost test: { PairTest }
    requires couples { Couples (F.pre couple) (F.post couple) test }
    ensures value { result ≡ pair_of (relation_of test) width i j }
    ensures reply { paired_told result ≡ pair_reply (relation_of test) width i j }
{
    pair_in(Format::try_from(width)?, couple, i, j)
}

// The ends of x and b that stand in x (+) x = b; refusals 1, 2 for x, b, 3 for x, b, 11, in this order.
pub fn narrow_double(width: u64, x: Interval, b: Interval) -> Result<Paired, Refusal>
    ensures value { result ≡ pair_of doubling width x b }
    ensures reply { paired_told result ≡ pair_reply doubling width x b }
{
    narrow_pair(width, double_ranges, x, b)
}

// The ends of x and a that stand in x (+) a = x; refusals 1, 2 for x, a, 3 for x, a, 11, in this order.
pub fn narrow_absorb(width: u64, x: Interval, a: Interval) -> Result<Paired, Refusal>
    ensures value { result ≡ pair_of absorbing width x a }
    ensures reply { paired_told result ≡ pair_reply absorbing width x a }
{
    narrow_pair(width, absorb_ranges, x, a)
}
