// From the least to the greatest b in a triple, without a search: b's low end where it stands in a triple, else the least of a few sums. The greatest is the mirror image of the least of the mirrored ranges.
ghost use Rattle.std.specs.Prelude.{◌≤◌};
ghost use Rattle.ladder.specs.Search.{Least};
ghost use Rattle.arith.specs.Searches.{Spans, Triple, HasB, AtMost, AtMostBefore, Reaching};

use crate::corner::clamped_corner;
use crate::operand::least_operand;
use crate::pattern::distance_from_zero;
use crate::range::{Range, mirror_of};
use crate::ranges::Ranges;
use crate::sum::sum_of;

// A b that stands in a triple: the one known, or the least sum with c that is not below b, if that is less.
fn lesser(r: &Ranges, c: u64, known: u64) -> u64
    requires { (r.now.a.low ≤ c) × (c ≤ r.now.a.high) × (HasB r.now known) }
    ensures { (HasB r.now result) × (result ≤ known) × (AtMost r.now.format c r.now.b.low r.now.x result) }
{
    match least_operand(r.format, c, r.b.low, r.x) {
        Some(y) => known.min(sum_of(r.format, y, c)),
        None => known,
    }
}

// The same with the a before the least that reaches b with x's low end.
fn lesser_before(r: &Ranges, known: u64) -> u64
    requires { HasB r.now known }
    ensures { (HasB r.now result) × (result ≤ known) × (AtMostBefore r.now result) }
{
    let Some(z) = least_operand(r.format, r.x.low, r.b.low, r.a) else {
        return known;
    };
    if z <= r.a.low {
        return known;
    }
    lesser(r, z - 1, known)
}

// The least b in a triple, where the one known is no more than the least sums with the low ends: b's low end where that stands in a triple, else the least of the sums that decide.
fn least_above(r: &Ranges, known: u64) -> u64
    requires { (Reaching r.now) × (HasB r.now known) × (AtMost r.now.format r.now.a.low r.now.b.low r.now.x known) × (AtMost r.now.format r.now.x.low r.now.b.low r.now.a known) }
    ensures { Least (HasB r.now) result }
{
    let low = Range {
        low: r.b.low,
        high: r.b.low,
    };
    if let Some(corner) = clamped_corner(&r.with_b(low)) {
        return corner.b;
    }
    if r.format.sign <= r.b.low {
        return known;
    }
    let s = lesser_before(r, known);
    lesser_before(&r.swapped(), s)
}

// The least b in a triple. The least sum with x's low end is it, unless a corner is found for the b below that.
fn least_with(r: &Ranges, known: u64) -> u64
    requires { (Reaching r.now) × (HasB r.now known) }
    ensures { Least (HasB r.now) result }
{
    let s = lesser(&r.swapped(), r.x.low, known);
    if s <= r.b.low {
        return s;
    }
    let below = Range {
        low: r.b.low,
        high: s - 1,
    };
    if clamped_corner(&r.with_b(below)).is_none() {
        return s;
    }
    let t = lesser(r, r.a.low, s);
    least_above(r, t)
}

// The least b in a triple: the sum of the low ends, unless that is below b. The operand whose low end is farther from zero goes first: with it held, the other moves the sum in smaller steps.
#[tactic(auto, using(crate::proofs::Swapping::swapped_b, crate::proofs::Swapping::swapped_reaching))]
fn least_b(r: &Ranges, known: u64) -> u64
    requires { (Reaching r.now) × (HasB r.now known) }
    ensures { Least (HasB r.now) result }
{
    let least = sum_of(r.format, r.x.low, r.a.low);
    if r.b.low <= least {
        return least;
    }
    if known <= r.b.low {
        return known;
    }
    if distance_from_zero(r.format, r.x.low) < distance_from_zero(r.format, r.a.low) {
        return least_with(&r.swapped(), known);
    }
    least_with(r, known)
}

// The b in a triple, where the ends crosswise make triples, with s and with t.
pub(crate) fn extent_b(r: &Ranges, s: u64, t: u64) -> Range
    requires { (Triple r.now r.now.x.low r.now.a.high s) × (Triple r.now r.now.x.high r.now.a.low t) }
    ensures { Spans (HasB r.now) result }
{
    let low = least_b(r, s.min(t));
    let m = least_b(&r.reflected(), mirror_of(r.format, s.max(t)));
    Range {
        low,
        high: mirror_of(r.format, m),
    }
}
