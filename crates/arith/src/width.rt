// The format of a width.
ghost use Rattle.std.specs.Prelude.{◌≡◌};
ghost use Rattle.arith.specs.Formats.{is_known, format_of, known_format};

use crate::format::Format;
use crate::refusal::Reason;

// Whether there is a format of the width: refusal 1 is for the others.
pub fn known(width: u64) -> bool
    ensures { result ≡ is_known width }
{
    matches!(width, 32 | 64)
}

// The format of a known width. Any other is refused before its format is used; here it gets that of 64.
pub fn format_of(width: u64) -> Format
    ensures { result ≡ format_of width }
{
    if width == 32 {
        return Format {
            fraction: 23,
            exponent: 8,
            sign: 0x8000_0000,
            infinity: 0x7F80_0000,
        };
    }
    Format {
        fraction: 52,
        exponent: 11,
        sign: 0x8000_0000_0000_0000,
        infinity: 0x7FF0_0000_0000_0000,
    }
}

// The format of a width that is known; refusal 1.
impl TryFrom<u64> for Format {
    type Error = Reason;

    ghost try_from_gives = { λ width r. r ≡ known_format width };

    fn try_from(width: u64) -> Result<Self, Reason> {
        Reason::Width.unless(known(width))?;
        Ok(format_of(width))
    }
}
