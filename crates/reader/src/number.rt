// Digits by hand, since std's `to_digit` takes small letters too, which 01 refuses. The two kinds of number that a field holds: decimal numerals, and patterns in hexadecimal capitals.
ghost use Rattle.std.specs.Prelude.{◌≡◌, ◌^◌, ◌≤◌, length};
ghost use Rattle.reader.specs.Numbers.{digit_of, value_from, numeral_of, digits_for, pattern_of};

// The value of a digit, 0 to 9 and A to F.
#[tactic(auto, unfolding(crate::specs::Numbers::digit_of))]
fn digit(b: u8) -> Option<u64>
    ensures { result ≡ digit_of b }
{
    match b {
        b'0'..=b'9' => Some(u64::from(b - b'0')),
        b'A'..=b'F' => Some(u64::from(b - b'A') + 10),
        _ => None,
    }
}

// The value of digits of a base.
fn value(f: &[u8], base: u64) -> Option<u64>
    requires { base ^ length f.now ≤ 2 ^ 64 }
    ensures { result ≡ value_from base 0 f.now }
{
    let mut v = 0;
    for b in f {
        let d = digit(*b)?;
        if base <= d {
            return None;
        }
        v = v * base + d;
    }
    Some(v)
}

// A decimal numeral: 1 to 5 digits, no leading zero but 0 itself.
#[tactic(auto, unfolding(crate::specs::Numbers::numeral_of))]
pub(crate) fn numeral(f: &[u8]) -> Option<u64>
    ensures { result ≡ numeral_of f.now }
{
    match f {
        [] | [b'0', _, ..] => None,
        _ if 5 < f.len() => None,
        _ => value(f, 10),
    }
}

// The digits of a pattern: 8 for width 32, 16 for any other.
#[tactic(auto, unfolding(crate::specs::Numbers::digits_for))]
pub fn digits_for(width: u64) -> usize
    ensures { (result ≡ digits_for width) × (result ≤ 16) }
{
    if width == 32 { 8 } else { 16 }
}

// A pattern: as many hexadecimal digits as the width asks.
#[tactic(auto, unfolding(crate::specs::Numbers::pattern_of), using(crate::proofs::Digits::hex_fits))]
pub(crate) fn pattern(width: u64, f: &[u8]) -> Option<u64>
    ensures { result ≡ pattern_of width f.now }
{
    if f.len() != digits_for(width) {
        return None;
    }
    value(f, 16)
}
