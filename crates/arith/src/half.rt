// Half a float and twice one: the least float whose double is at least b, the greatest whose double is at most b, and the double.
ghost use Rattle.std.specs.Prelude.{◌≡◌, ◌^◌, ◌≤◌};
ghost use Rattle.ladder.specs.Halves.{doubled, halved};
ghost use Rattle.arith.specs.Formats.{sum};
ghost use Rattle.arith.specs.PairSearches.{FiniteAt, LeastHalf, GreatestHalf, Doublable};

use crate::format::Format;
use crate::range::mirror_of;
use crate::words::shift_left;

// Half of a pattern without its sign; of an odd one that is no double rounded down, and up for up = 1.
fn half_of(fraction: u64, up: u64, n: u64) -> u64
    requires { (fraction ≤ 52) × (up ≤ 1) }
    ensures { result ≡ halved fraction up n }
{
    let h = shift_left(1, fraction);
    if n < 2 * h {
        return (n + up) / 2;
    }
    n - h
}

// The least ordinal whose double is at least b.
pub(crate) fn half_up(format: Format, b: u64) -> u64
    requires { FiniteAt format b }
    ensures { LeastHalf format b result }
{
    let fraction = format.fraction;
    if b <= format.sign {
        return format.sign - half_of(fraction, 0, format.sign - b);
    }
    format.sign + half_of(fraction, 1, b - format.sign)
}

// The greatest ordinal whose double is at most b.
pub(crate) fn half_down(format: Format, b: u64) -> u64
    requires { FiniteAt format b }
    ensures { GreatestHalf format b result }
{
    let m = half_up(format, mirror_of(format, b));
    mirror_of(format, m)
}

// Twice a pattern without its sign.
fn double_of(fraction: u64, m: u64) -> u64
    requires { (fraction ≤ 52) × (m ≤ 2 ^ 63) }
    ensures { result ≡ doubled fraction m }
{
    let h = shift_left(1, fraction);
    if m < h {
        return 2 * m;
    }
    m + h
}

// x (+) x, where that is finite.
pub(crate) fn double(format: Format, x: u64) -> u64
    requires { Doublable format x }
    ensures { result ≡ sum format x x }
{
    let fraction = format.fraction;
    if x < format.sign {
        return format.sign - double_of(fraction, format.sign - x);
    }
    format.sign + double_of(fraction, x - format.sign)
}
