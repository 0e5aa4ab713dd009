// Ranges of ordinals: the ends of an interval as the arithmetic works on them. A range whose low is above its high holds nothing. It has no format,
// so that two can be shared without a word about theirs; a function that works in one says that the ends are finite in it.
ghost use Rattle.std.specs.Prelude.{◌≡◌};
ghost use Rattle.arith.specs.Formats.{Finite, mirrored};
ghost use Rattle.arith.specs.Intervals.{Bounded, is_ordered, common, reflected};

use crate::format::Format;

#[derive(Clone, Copy)]
pub(crate) struct Range {
    pub(crate) low: u64,
    pub(crate) high: u64,
}

// Whether low is no higher than high.
pub(crate) fn ordered(r: Range) -> bool
    ensures { result ≡ is_ordered r }
{
    r.low <= r.high
}

// What two ranges share.
pub(crate) fn shared(r: Range, s: Range) -> Range
    ensures { result ≡ common r s }
{
    Range {
        low: r.low.max(s.low),
        high: r.high.min(s.high),
    }
}

// The ordinal of the value with the other sign.
pub(crate) fn mirror_of(format: Format, r: u64) -> u64
    requires { Finite format r }
    ensures { result ≡ mirrored format r }
{
    if r < format.sign {
        return format.sign + (format.sign - r);
    }
    format.sign - (r - format.sign)
}

// From the mirrored high end to the mirrored low end.
pub(crate) fn reflect(format: Format, r: Range) -> Range
    requires { Bounded format r }
    ensures { result ≡ reflected format r }
{
    Range {
        low: mirror_of(format, r.high),
        high: mirror_of(format, r.low),
    }
}
