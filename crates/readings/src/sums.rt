// 01's forward sums and some more, with their marks, remainders and refusals, and one for each place in the order of refusals.
use crate::named::{
    INFINITE, LARGEST, LEAST, MINUS_ONE, MINUS_ZERO, ONE, ONE_32, TIE_ABOVE, TIE_BELOW, TWO,
};
use crate::print::{Answer, At, conclude, refused_by};
use arith::refusal::{Reason, Refusal};
use arith::sum::{Mark, Sum, add};
use std::io::Stdout;

impl Answer for Sum {
    fn show(&self, out: Stdout, width: u64) {
        let mark = self.mark.number();
        let _ = print!(out;
            " ={} mark {mark} remainder{}",
            At(width, &[self.pattern]),
            At(width, &[self.remainder])
        );
    }
}

// A sum that is not refused.
fn sum_of(pattern: u64, mark: Mark, remainder: u64) -> Result<Sum, Refusal> {
    Ok(Sum {
        pattern,
        mark,
        remainder,
    })
}

// A line with the sum as answered, and whether that is the answer expected.
fn read(out: Stdout, width: u64, x: u64, a: u64, expected: Result<Sum, Refusal>) {
    let _ = print!(out; "sum {width}{}", At(width, &[x, a]));
    let got = add(width, x, a);
    conclude(out, width, &got, got == expected)
}

// Ties, neighbours of ties, the smallest floats and the largest.
fn read_starred(out: Stdout) {
    for (width, x, a, expected) in [
        (64, ONE, TIE_ABOVE, sum_of(ONE, Mark::Rounded, TIE_ABOVE)),
        (
            64,
            ONE,
            TIE_ABOVE + 1,
            sum_of(ONE + 1, Mark::Rounded, 0xBC9FFFFFFFFFFFFE),
        ),
        (64, 1, 1, sum_of(2, Mark::Exact, 0)),
        (
            64,
            LARGEST,
            0x7C80000000000000,
            sum_of(LARGEST, Mark::Rounded, 0x7C80000000000000),
        ),
        (
            64,
            LARGEST,
            0x7C90000000000000,
            refused_by(Reason::Overflow),
        ),
        (
            32,
            ONE_32,
            0x33800000,
            sum_of(ONE_32, Mark::Rounded, 0x33800000),
        ),
    ] {
        read(out, width, x, a, expected);
    }
}

// Zero has one pattern; below a power of two the floats are twice as dense.
fn read_signs(out: Stdout) {
    for (width, x, a, expected) in [
        (64, MINUS_ZERO, MINUS_ZERO, sum_of(0, Mark::Exact, 0)),
        (64, ONE, MINUS_ONE, sum_of(0, Mark::Exact, 0)),
        (64, ONE, TIE_BELOW, sum_of(ONE, Mark::Rounded, TIE_BELOW)),
        (
            64,
            ONE,
            TIE_BELOW + 1,
            sum_of(ONE - 1, Mark::Rounded, 0x3C8FFFFFFFFFFFFE),
        ),
        (64, LEAST, 0xFC90000000000000, refused_by(Reason::Overflow)),
        (
            32,
            0x00800000,
            0x80000001,
            sum_of(0x007FFFFF, Mark::Exact, 0),
        ),
        (32, 0x7F7FFFFF, 0x73000000, refused_by(Reason::Overflow)),
    ] {
        read(out, width, x, a, expected);
    }
}

// What rounding left over: of a tie that went up, of a carry into the next binade, and of sums below zero.
fn read_remainders(out: Stdout) {
    for (x, a, expected) in [
        (
            ONE + 1,
            TIE_ABOVE,
            sum_of(ONE + 2, Mark::Rounded, 0xBCA0000000000000),
        ),
        (
            TWO - 1,
            0x3CA8000000000000,
            sum_of(TWO, Mark::Rounded, 0xBC90000000000000),
        ),
        (
            MINUS_ONE,
            0xBCA0000000000001,
            sum_of(MINUS_ONE + 1, Mark::Rounded, 0x3C9FFFFFFFFFFFFE),
        ),
        (
            TIE_ABOVE + 1,
            MINUS_ONE,
            sum_of(MINUS_ONE - 1, Mark::Rounded, 0x3960000000000000),
        ),
    ] {
        read(out, 64, x, a, expected);
    }
}

// One unit left over: where the signs are opposite, and across a gap of more than a word, on either side of zero.
fn read_units_left(out: Stdout) {
    for (width, x, a, pattern) in [
        (
            64,
            0x0040000000000000,
            0x8000000000000003,
            0x003FFFFFFFFFFFFF,
        ),
        (64, LARGEST, 1, LARGEST),
        (64, LEAST, 1, LEAST),
        (32, 0x01800000, 0x80000003, 0x017FFFFE),
    ] {
        read(out, width, x, a, sum_of(pattern, Mark::Rounded, 1));
    }
}

// Refusals 1, 2 for x, 2 for a, and their order.
fn read_refusals(out: Stdout) {
    for (width, x, a, reason) in [
        (0, INFINITE, INFINITE, Reason::Width),
        (33, ONE_32, ONE_32, Reason::Width),
        (64, INFINITE, ONE, Reason::NotFinite),
        (64, LARGEST, 0xFFF8000000000000, Reason::NotFinite),
        (32, 0x100000000, ONE_32, Reason::NotFinite),
        (32, ONE_32, 0x7F800001, Reason::NotFinite),
    ] {
        read(out, width, x, a, refused_by(reason));
    }
}

pub(crate) fn read_sums(out: Stdout) {
    read_starred(out);
    read_signs(out);
    read_remainders(out);
    read_units_left(out);
    read_refusals(out)
}
