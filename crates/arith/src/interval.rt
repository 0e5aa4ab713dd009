// Intervals of patterns, with their cut, shift and mirror. Results are written in canonical patterns. The width beside an interval is the caller's number, unchecked.
ghost use Rattle.std.specs.Prelude.{◌≡◌, true};
ghost use Rattle.arith.specs.Formats.{format_of};
ghost use Rattle.arith.specs.Intervals.{Bounded, mirrored_ends, ends_finite, range_of, interval_of, shared_in, canonical_in, cut_in, shift_in, mirror_in};
ghost use Rattle.arith.specs.Intervals.{canonical_of, cut_of, shift_of, mirror_of};
ghost use Rattle.arith.specs.Answers.{cut_told, image_told};
ghost use Rattle.arith.specs.Replies.{reply_after, own_tests, cut_tests, shift_tests, canonical_values, cut_values, shift_values, mirror_values};

use crate::format::Format;
use crate::pattern::{finite, negate, ordinal_of, pattern_of};
use crate::range::{Range, ordered, shared};
use crate::refusal::{Reason, Refusal};
use crate::sum::add_finite;
use crate::width::format_of;

// The floats from low to high, by their patterns.
#[derive(Clone, Copy, PartialEq, Eq)]
pub struct Interval {
    pub low: u64,
    pub high: u64,
}

// Whether both ends are finite.
#[tactic(auto, unfolding(crate::specs::Intervals::ends_finite))]
pub(crate) fn ends_finite(format: Format, i: Interval) -> bool
    ensures { result ≡ ends_finite format i }
{
    finite(format, i.low) && finite(format, i.high)
}

// The ordinals of the ends.
pub(crate) fn range_of(format: Format, i: Interval) -> Range
    requires { ends_finite format i ≡ true }
    ensures value { result ≡ range_of format i }
    ensures ends { Bounded format result }
{
    Range {
        low: ordinal_of(format, i.low),
        high: ordinal_of(format, i.high),
    }
}

// The patterns of the ends.
pub(crate) fn interval_of(format: Format, r: Range) -> Interval
    requires { Bounded format r }
    ensures { result ≡ interval_of format r }
{
    Interval {
        low: pattern_of(format, r.low),
        high: pattern_of(format, r.high),
    }
}

// The interval in canonical patterns.
#[tactic(auto, unfolding(crate::specs::Intervals::canonical_in))]
fn canonical_in(format: Format, i: Interval) -> Result<Interval, Refusal>
    ensures { result ≡ canonical_in format i }
{
    Reason::NotFinite.unless(ends_finite(format, i))?;
    let own = range_of(format, i);
    Reason::Reversed.unless(ordered(own))?;
    Ok(interval_of(format, own))
}

// The interval of a shared range, or that nothing is shared.
#[tactic(auto, unfolding(crate::specs::Intervals::shared_in))]
fn shared_in(format: Format, r: Range) -> Option<Interval>
    requires { Bounded format r }
    ensures { result ≡ shared_in format r }
{
    if ordered(r) {
        Some(interval_of(format, r))
    } else {
        None
    }
}

// The cut in a format.
#[tactic(auto, unfolding(crate::specs::Intervals::cut_in), using(crate::proofs::Intervals::common_ends))]
fn cut_in(format: Format, i: Interval, j: Interval) -> Result<Option<Interval>, Refusal>
    ensures { result ≡ cut_in format i j }
{
    Reason::NotFinite.unless(ends_finite(format, i))?;
    Reason::NotFinite.unless(ends_finite(format, j))?;
    let own = range_of(format, i);
    Reason::Reversed.unless(ordered(own))?;
    let second = range_of(format, j);
    Reason::Reversed.unless(ordered(second))?;
    Ok(shared_in(format, shared(own, second)))
}

// The shift in a format.
#[tactic(auto, unfolding(crate::specs::Intervals::shift_in), using(crate::proofs::Intervals::ends_both, crate::proofs::Intervals::both_moved, crate::proofs::Intervals::low_refused, crate::proofs::Intervals::high_refused))]
fn shift_in(format: Format, i: Interval, c: u64) -> Result<Interval, Refusal>
    ensures { result ≡ shift_in format i c }
{
    Reason::NotFinite.unless(ends_finite(format, i))?;
    Reason::NotFinite.unless(finite(format, c))?;
    Reason::Reversed.unless(ordered(range_of(format, i)))?;
    let low = add_finite(format, i.low, c)?;
    let high = add_finite(format, i.high, c)?;
    Ok(Interval {
        low: low.pattern,
        high: high.pattern,
    })
}

// The ends exchanged, each with the other sign.
fn mirrored(format: Format, i: Interval) -> Interval
    ensures { result ≡ mirrored_ends format i }
{
    Interval {
        low: negate(format, i.high),
        high: negate(format, i.low),
    }
}

// The mirror in a format.
#[tactic(auto, unfolding(crate::specs::Intervals::mirror_in), using(crate::proofs::Intervals::mirrored_ends_lem))]
fn mirror_in(format: Format, i: Interval) -> Result<Interval, Refusal>
    ensures { result ≡ mirror_in format i }
{
    Reason::NotFinite.unless(ends_finite(format, i))?;
    let own = range_of(format, i);
    Reason::Reversed.unless(ordered(own))?;
    Ok(mirrored(format, i))
}

impl Interval {
    // The interval from low to high, whatever these are.
    pub fn new(low: u64, high: u64) -> Self
        ensures { result ≡ record { low = low; high = high } }
    {
        Interval { low, high }
    }

    // The interval with its ends in canonical patterns; refusals 1, 2 for low then high, 3.
    #[tactic(auto, unfolding(crate::specs::Intervals::canonical_of), using(crate::proofs::Replies::canonical_reply))]
    pub fn canonical(self, width: u64) -> Result<Interval, Refusal>
        ensures value { result ≡ canonical_of width self }
        ensures reply { image_told result ≡ reply_after (own_tests width self) (canonical_values width self) }
    {
        canonical_in(Format::try_from(width)?, self)
    }

    // What the interval shares with another; refusals 1, 2 for the own ends then the other's, 3 for the own then the other.
    #[tactic(auto, unfolding(crate::specs::Intervals::cut_of), using(crate::proofs::Replies::cut_reply))]
    pub fn cut(self, width: u64, other: Interval) -> Result<Option<Interval>, Refusal>
        ensures value { result ≡ cut_of width self other }
        ensures reply { cut_told result ≡ reply_after (cut_tests width self other) (cut_values width self other) }
    {
        cut_in(Format::try_from(width)?, self, other)
    }

    // From low + c to high + c, each sum rounded; refusals 1, 2 for the ends then c, 3, 9.
    #[tactic(auto, unfolding(crate::specs::Intervals::shift_of), using(crate::proofs::Replies::shift_reply))]
    pub fn shift(self, width: u64, c: u64) -> Result<Interval, Refusal>
        ensures value { result ≡ shift_of width self c }
        ensures reply { image_told result ≡ reply_after (shift_tests width self c) (shift_values width self c) }
    {
        shift_in(Format::try_from(width)?, self, c)
    }

    // From -high to -low, and no test: what `mirror` gives of an interval that it does not refuse.
    pub fn mirror_ends(self, width: u64) -> Self
        ensures { result ≡ mirrored_ends (format_of width) self }
    {
        mirrored(format_of(width), self)
    }

    // From -high to -low; refusals 1, 2, 3.
    #[tactic(auto, unfolding(crate::specs::Intervals::mirror_of), using(crate::proofs::Replies::mirror_reply))]
    pub fn mirror(self, width: u64) -> Result<Interval, Refusal>
        ensures value { result ≡ mirror_of width self }
        ensures reply { image_told result ≡ reply_after (own_tests width self) (mirror_values width self) }
    {
        mirror_in(Format::try_from(width)?, self)
    }
}
