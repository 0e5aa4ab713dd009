// The narrowing of one sum, by a few sums of the machine where these settle it, else by the exact way: the contract is that of `arith::narrow::narrow`.
ghost use Rattle.std.specs.Prelude.{◌≡◌};
ghost use Rattle.arith.specs.Narrows.{narrow_of};
ghost use Rattle.arith.specs.Answers.{narrowed_told};
ghost use Rattle.arith.specs.Replies.{reply_after, narrow_tests, narrow_values};

use crate::shortcut::shortcut_at;
use arith::interval::Interval;
use arith::narrow::Narrowed;
use arith::refusal::Refusal;

// The ends of x, a and b that stand in triples; refusals 1, 2 for x, a, b, 3 for x, a, b, 11, in this order.
pub fn narrow(width: u64, x: Interval, a: Interval, b: Interval) -> Result<Narrowed, Refusal>
    ensures value { result ≡ narrow_of width x a b }
    ensures reply { narrowed_told result ≡ reply_after (narrow_tests width x a b) (narrow_values width x a b) }
{
    match shortcut_at(width, x, a, b) {
        Ok(narrowed) => narrowed,
        Err(left) => arith::narrow::narrow(width, left.x, left.a, b),
    }
}
