// The narrowing of one sum at width 64, with its result as floats.
ghost use Rattle.std.specs.Prelude.{◌≡◌, true};
ghost use Rattle.arith.specs.Formats.{format_of};
ghost use Rattle.arith.specs.Intervals.{ends_finite};
ghost use Rattle.arith.specs.Replies.{reply_after, given_tests};
ghost use Rattle.tazsmibor.specs.Floating.{floats_of, float_ends, narrow_floats_of, floats_told, float_values};

use arith::interval::Interval;
use arith::narrow::{Narrowed, narrow};
use arith::refusal::{Reason, Refusal};

// An interval: one float where both ends agree, two otherwise, or that there is none.
// 01 names these three cases, so none is one of them and no Option.
#[derive(Clone, Copy)]
pub enum Floats {
    Point(f64),
    Span(f64, f64),
    None,
}

// The three intervals.
#[derive(Clone, Copy)]
pub struct FloatEnds {
    pub x: Floats,
    pub a: Floats,
    pub b: Floats,
}

// An interval of finite patterns.
#[tactic(auto, using(crate::proofs::Floating::low_number, crate::proofs::Floating::high_number, crate::proofs::Floating::point_is, crate::proofs::Floating::span_is))]
fn floats_of(i: Interval) -> Floats
    requires { ends_finite (format_of 64) i ≡ true }
    ensures { result ≡ floats_of i }
{
    if i.low == i.high {
        return Floats::Point(f64::from_bits(i.low));
    }
    Floats::Span(f64::from_bits(i.low), f64::from_bits(i.high))
}

// Three intervals of finite patterns.
fn float_ends(n: Narrowed) -> FloatEnds
    requires { (ends_finite (format_of 64) n.x ≡ true) × (ends_finite (format_of 64) n.a ≡ true) × (ends_finite (format_of 64) n.b ≡ true) }
    ensures { result ≡ float_ends n }
{
    FloatEnds {
        x: floats_of(n.x),
        a: floats_of(n.a),
        b: floats_of(n.b),
    }
}

// The values of x, a and b that stand in triples, none for all three where there is no triple; refusals 2 for x, a, b, then 3 for x, a, b.
#[tactic(auto, using(crate::proofs::Floating::floats_none, crate::proofs::Floating::floats_refused, crate::proofs::Floating::floats_reply))]
pub fn narrow_floats(x: Interval, a: Interval, b: Interval) -> Result<FloatEnds, Refusal>
    ensures value { result ≡ narrow_floats_of x a b }
    ensures reply { floats_told result ≡ reply_after (given_tests 64 x a b) (float_values x a b) }
{
    match narrow(64, x, a, b) {
        Ok(narrowed) => Ok(float_ends(narrowed)),
        Err(refusal) if refusal.reason == Reason::NoTriple => Ok(FloatEnds {
            x: Floats::None,
            a: Floats::None,
            b: Floats::None,
        }),
        Err(refusal) => Err(refusal),
    }
}
