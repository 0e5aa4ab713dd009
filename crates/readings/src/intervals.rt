// Cut, shift, mirror and canonical patterns of intervals, with each refusal and its order.
use crate::named::{
    FOUR_32, INFINITE_32, LARGEST, LARGEST_32, LEAST, LEAST_32, MINUS_INFINITE, MINUS_ONE,
    MINUS_ONE_32, MINUS_TWO, MINUS_ZERO_32, ONE, ONE_32, THREE_32, TIE_ABOVE, TWO, TWO_32,
};
use crate::print::{Answer, At, EndsAt, conclude, refused_by};
use arith::interval::Interval;
use arith::refusal::{Reason, Refusal};
use std::io::Stdout;

// The interval with these ends.
pub(crate) fn ends(low: u64, high: u64) -> Interval {
    Interval::new(low, high)
}

impl Answer for Interval {
    fn show(&self, out: Stdout, width: u64) {
        let _ = print!(out; " ={}", EndsAt(width, *self));
    }
}

// What is shared.
impl Answer for Option<Interval> {
    fn show(&self, out: Stdout, width: u64) {
        match self {
            Some(i) => i.show(out, width),
            None => {
                let _ = print!(out; " = nothing");
            }
        }
    }
}

// [1, 3] and [2, 4] share [2, 3], [1, 2] and [3, 4] nothing, and a shared zero has its one pattern.
fn read_cuts(out: Stdout) {
    let low = ends(ONE_32, TWO_32);
    let crossed = ends(TWO_32, ONE_32);
    let infinite = ends(INFINITE_32, 0);
    let to_infinity = ends(TWO_32, INFINITE_32);
    for (width, i, j, expected) in [
        (
            32,
            ends(ONE_32, THREE_32),
            ends(TWO_32, FOUR_32),
            Ok(Some(ends(TWO_32, THREE_32))),
        ),
        (32, low, ends(THREE_32, FOUR_32), Ok(None)),
        (
            32,
            ends(MINUS_ONE_32, MINUS_ZERO_32),
            ends(0, ONE_32),
            Ok(Some(ends(0, 0))),
        ),
        (16, infinite, infinite, refused_by(Reason::Width)),
        (32, crossed, to_infinity, refused_by(Reason::NotFinite)),
        (32, low, crossed, refused_by(Reason::Reversed)),
    ] {
        let _ = print!(out; "cut {width}{}{}", EndsAt(width, i), EndsAt(width, j));
        let got = i.cut(width, j);
        conclude(out, width, &got, got == expected);
    }
}

// Ends are rounded each by itself: [1, 1 + 2^-52] by 2^-53 becomes [1, 1 + 2^-51].
fn read_shifts(out: Stdout) {
    for (width, i, c, expected) in [
        (64, ends(ONE, ONE + 1), TIE_ABOVE, Ok(ends(ONE, ONE + 2))),
        (64, ends(MINUS_ONE, ONE), ONE, Ok(ends(0, TWO))),
        (65, ends(0, 0), 0, refused_by(Reason::Width)),
        (
            64,
            ends(0, 0),
            MINUS_INFINITE,
            refused_by(Reason::NotFinite),
        ),
        (64, ends(1, 0), ONE, refused_by(Reason::Reversed)),
        (
            64,
            ends(0, LARGEST),
            0x7C90000000000000,
            refused_by(Reason::Overflow),
        ),
        (
            64,
            ends(LEAST, 0),
            0xFC90000000000000,
            refused_by(Reason::Overflow),
        ),
    ] {
        let _ = print!(out; "shift {width}{}{}", EndsAt(width, i), At(width, &[c]));
        let got = i.shift(width, c);
        conclude(out, width, &got, got == expected);
    }
}

// A line for a call of this name at each width and interval, with the answer expected.
fn read_images<F: Fn(Interval, u64) -> Result<Interval, Refusal>>(
    out: Stdout,
    name: &str,
    call: F,
    cases: &[(u64, Interval, Result<Interval, Refusal>)],
)
    requires { F.IsAlwaysCallable call }
{
    for (width, i, expected) in cases {
        let width = *width;
        let _ = print!(out; "{name} {width}{}", EndsAt(width, *i));
        let got = call(*i, width);
        conclude(out, width, &got, got == *expected);
    }
}

fn read_mirrors(out: Stdout) {
    read_images(
        out,
        "mirror",
        |i, width| i.mirror(width),
        &[
            (64, ends(MINUS_ONE, TWO), Ok(ends(MINUS_TWO, ONE))),
            (64, ends(0, ONE), Ok(ends(MINUS_ONE, 0))),
            (63, ends(0, 0), refused_by(Reason::Width)),
            (64, ends(MINUS_INFINITE, 0), refused_by(Reason::NotFinite)),
            (
                64,
                ends(0, 0x8000000000000001),
                refused_by(Reason::Reversed),
            ),
        ],
    )
}

// The mirror without a test: of both zeros, and of an interval out of order.
fn read_mirrored_ends(out: Stdout) {
    read_images(
        out,
        "mirror of the ends",
        |i, width| Ok(i.mirror_ends(width)),
        &[
            (64, ends(MINUS_ONE, TWO), Ok(ends(MINUS_TWO, ONE))),
            (32, ends(MINUS_ZERO_32, 0), Ok(ends(0, 0))),
            (
                32,
                ends(ONE_32, LEAST_32),
                Ok(ends(LARGEST_32, MINUS_ONE_32)),
            ),
        ],
    )
}

fn read_canonicals(out: Stdout) {
    read_images(
        out,
        "canonical",
        |i, width| i.canonical(width),
        &[
            (32, ends(MINUS_ZERO_32, MINUS_ZERO_32), Ok(ends(0, 0))),
            (
                32,
                ends(LEAST_32, LARGEST_32),
                Ok(ends(LEAST_32, LARGEST_32)),
            ),
            (31, ends(0, 0), refused_by(Reason::Width)),
            (32, ends(0, 0x100000000), refused_by(Reason::NotFinite)),
            (32, ends(1, MINUS_ZERO_32), refused_by(Reason::Reversed)),
        ],
    )
}

pub(crate) fn read_intervals(out: Stdout) {
    read_cuts(out);
    read_shifts(out);
    read_mirrors(out);
    read_mirrored_ends(out);
    read_canonicals(out)
}
