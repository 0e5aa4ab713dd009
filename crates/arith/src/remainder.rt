// 02's remainder: what rounding left over of a sum, from the exact sum and its rounding. Where nothing was lost it is zero; else it
// is the difference of two low words, however far apart the operands are. What it promises is said in specs/Steps. Rests on `words`
// and `format`; the forms that it takes and gives are those of `sum`.
ghost use Rattle.std.specs.Prelude.{◌≡◌, ◌+◌, ◌*◌, ◌%◌, ◌^◌, ◌≤◌};
ghost use Rattle.ladder.specs.Magnitude.{magnitude};
ghost use Rattle.arith.specs.Exacts.{steps_of, coarse_steps, Encodable};
ghost use Rattle.arith.specs.Steps.{RoundedSum, LeftOver};

use crate::format::Format;
use crate::sum::{Exact, ExactSum, Rounding, Scaled, Signed};
use crate::words::{digits, shift_left, shift_wrapping};

// The low word of the size of an exact sum, in steps of 2^shift units.
fn low_word(t: Exact) -> u64
    requires { t.smaller ≤ t.larger * 2 ^ t.gap }
    ensures { result ≡ steps_of t % 2 ^ 64 }
{
    let larger = shift_wrapping(t.larger, t.gap);
    if t.opposite {
        return larger.wrapping_sub(t.smaller);
    }
    larger.wrapping_add(t.smaller)
}

// The low word of that size less a number of units that is no finer, in the same steps: wrapped around where this is below zero.
fn take_away(t: Exact, kept: Scaled) -> u64
    requires { (t.smaller ≤ t.larger * 2 ^ t.gap) × (t.shift ≤ kept.shift) }
    ensures { (result + coarse_steps t kept % 2 ^ 64) % 2 ^ 64 ≡ steps_of t % 2 ^ 64 }
{
    let over = kept.shift - t.shift;
    let exact = low_word(t);
    let rounded = shift_wrapping(kept.significand, over);
    exact.wrapping_sub(rounded)
}

// The m of n * 2^shift units, where n has no more digits than a significand: the way back from `decode` of `sum`.
pub(crate) fn encode(fraction: u64, n: u64, shift: u64) -> u64
    requires { Encodable fraction n shift }
    ensures { magnitude fraction result ≡ n * 2 ^ shift }
{
    let room = fraction + 1 - digits(n);
    let up = room.min(shift);
    shift_left(shift - up, fraction) + shift_left(n, up)
}

// What rounding left over: the exact sum less the rounded one, with nothing lost. It is no larger than the smaller operand, so in
// steps of 2^shift units one word holds it, however wide the gap: as it is where the rounded size is too small, wrapped around
// below zero where that is too large.
pub(crate) fn left_over(format: Format, t: ExactSum, r: Rounding) -> Signed
    requires { RoundedSum format t r }
    ensures { LeftOver format t r.result.m result }
{
    if r.result.exact {
        return Signed { sign: t.sign, m: 0 };
    }
    let size = t.size;
    let kept = r.kept;
    let left = take_away(size, kept);
    let past = 0x8000_0000_0000_0000 <= left;
    let steps = if past { left.wrapping_neg() } else { left };
    let sign = if past { format.sign - t.sign } else { t.sign };
    Signed {
        sign,
        m: encode(format.fraction, steps, size.shift),
    }
}
