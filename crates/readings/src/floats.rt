// The narrowing of one sum at width 64 as floats: one where both ends agree, two otherwise, or none.
use crate::intervals::ends;
use crate::named::{
    INFINITE, LARGE, MINUS_LARGE, MINUS_TWICE_LARGE, ONE, TIE_ABOVE, TIE_BELOW, TWICE_LARGE,
};
use crate::narrowings::{FINITE, ONES, Three};
use crate::print::{Answer, EndsAt, conclude, refused_by};
use arith::refusal::{Reason, Refusal};
use std::fmt;
use std::io::Stdout;
use tazsmibor::floats::{FloatEnds, Floats, narrow_floats};

// The floats of one interval by their patterns: == of floats holds of both zeros, and of no NaN.
#[derive(Clone, Copy, PartialEq, Eq)]
enum Patterns {
    Point(u64),
    Span(u64, u64),
    None,
}

impl fmt::Display for Patterns {
    fn fmt<W: fmt::Write>(&self, f: &mut fmt::Formatter<W>) -> fmt::Result {
        match self {
            Patterns::Point(p) => write!(f, "{p:016X}"),
            Patterns::Span(p, q) => write!(f, "{p:016X} to {q:016X}"),
            Patterns::None => write!(f, "none"),
        }
    }
}

// Those of x, a and b.
impl Answer for [Patterns; 3] {
    fn show(&self, out: Stdout, _width: u64) {
        let [x, a, b] = self;
        let _ = print!(out; " = x {x}, a {a}, b {b}");
    }
}

// A float's pattern, and a NaN's for a NaN.
fn pattern_of(b: f64) -> u64 {
    if !b.is_nan() {
        return b.to_bits();
    }
    0x7FF8_0000_0000_0000
}

// The patterns of the floats of an interval.
fn patterns_of(f: Floats) -> Patterns {
    match f {
        Floats::Point(p) => Patterns::Point(pattern_of(p)),
        Floats::Span(p, q) => Patterns::Span(pattern_of(p), pattern_of(q)),
        Floats::None => Patterns::None,
    }
}

// What a narrowing answers in floats.
fn answer_of(answer: Result<FloatEnds, Refusal>) -> Result<[Patterns; 3], Refusal> {
    answer.map(|f| [patterns_of(f.x), patterns_of(f.a), patterns_of(f.b)])
}

// A line with the intervals given, and the floats by their patterns.
fn read(out: Stdout, given: Three, expected: Result<[Patterns; 3], Refusal>) {
    let [x, a, b] = given;
    let _ = print!(out; "floats{}{}{}", EndsAt(64, x), EndsAt(64, a), EndsAt(64, b));
    let got = answer_of(narrow_floats(x, a, b));
    conclude(out, 64, &got, got == expected)
}

// 01's first narrowing, one with no triple, an infinite end before a crossed interval, and that interval.
pub(crate) fn read_floats(out: Stdout) {
    let small = Patterns::Span(TIE_BELOW, TIE_ABOVE);
    let one = Patterns::Point(ONE);
    let none = Patterns::None;
    let crossed = ends(1, 0);
    let large = ends(LARGE, TWICE_LARGE);
    let minus_large = ends(MINUS_TWICE_LARGE, MINUS_LARGE);
    read(out, [FINITE, ONES, ONES], Ok([small, one, one]));
    read(out, [large, minus_large, ONES], Ok([none, none, none]));
    read(
        out,
        [crossed, ONES, ends(0, INFINITE)],
        refused_by(Reason::NotFinite),
    );
    read(out, [ONES, ONES, crossed], refused_by(Reason::Reversed))
}
