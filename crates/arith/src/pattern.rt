// Patterns and ordinals: which patterns are finite, the one with the other sign, the ordinal of a pattern of the width, and the one pattern that is written for a finite ordinal.
ghost use Rattle.std.specs.Prelude.{◌≡◌, ◌+◌, ◌-◌, ◌*◌, ◌<◌};
ghost use Rattle.arith.specs.Formats.{Finite, is_finite, negated, ordinal, pattern};

use crate::format::Format;

// Whether a pattern is finite. One with bits beyond the width is not.
pub(crate) fn finite(format: Format, p: u64) -> bool
    ensures { result ≡ is_finite format p }
{
    if p < format.sign {
        return p < format.infinity;
    }
    p - format.sign < format.infinity
}

// The pattern with the other sign; both zeros have one.
pub(crate) fn negate(format: Format, p: u64) -> u64
    ensures { result ≡ negated format p }
{
    if p == 0 {
        return 0;
    }
    if p < format.sign {
        return p + format.sign;
    }
    p - format.sign
}

// The ordinal of a pattern with no bits beyond the width, an infinity's and a NaN's too.
pub(crate) fn ordinal_of(format: Format, p: u64) -> u64
    requires { p < 2 * format.sign }
    ensures { result ≡ ordinal format p }
{
    if p < format.sign {
        return format.sign + p;
    }
    format.sign - (p - format.sign)
}

// How far an ordinal is from zero's.
pub(crate) fn distance_from_zero(format: Format, r: u64) -> u64
    ensures { result ≡ (r - format.sign) + (format.sign - r) }
{
    r.abs_diff(format.sign)
}

// The pattern of a finite ordinal, zero with its sign clear.
pub(crate) fn pattern_of(format: Format, r: u64) -> u64
    requires { Finite format r }
    ensures { result ≡ pattern format r }
{
    if r < format.sign {
        return format.sign + (format.sign - r);
    }
    r - format.sign
}
