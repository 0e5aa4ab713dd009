// 01's traps in the narrowing of one sum, each as a reading that the mistake answers otherwise.
use crate::intervals::ends;
use crate::named::{LARGE, MINUS_LARGE, MINUS_TWICE_LARGE, ONE, TIE_ABOVE, TWICE_LARGE, TWO};
use crate::narrowings::{FINITE, ONES, Three, read_narrowing};
use crate::print::refused_by;
use arith::refusal::{Reason, Refusal};
use std::io::Stdout;

// A line for a trap, at width 64.
fn read(out: Stdout, trap: &str, given: Three, expected: Result<Three, Refusal>) {
    let _ = print!(out; "trap, {trap}: ");
    read_narrowing(out, 64, given, expected)
}

// b - a is no end of x: here it is 2^-52, and x runs from just above 2^-53 to just below 3 * 2^-53.
fn read_difference(out: Stdout) {
    let above = ends(ONE + 1, ONE + 1);
    let x = ends(TIE_ABOVE + 1, 0x3CB7FFFFFFFFFFFF);
    read(
        out,
        "rounded difference",
        [FINITE, ONES, above],
        Ok([x, ONES, above]),
    )
}

// The sums run from -2^53 to 2^53, and b lies between; but every sum is even, and b is 3.
fn read_overlap(out: Stdout) {
    let x = ends(LARGE, TWICE_LARGE);
    let a = ends(MINUS_TWICE_LARGE, MINUS_LARGE);
    let three = ends(0x4008000000000000, 0x4008000000000000);
    read(
        out,
        "overlapping ends",
        [x, a, three],
        refused_by(Reason::NoTriple),
    )
}

// -1 - 2^-52 lies between the ends that 01's reading gives for x, and fits no triple.
fn read_between(out: Stdout) {
    let x = ends(0xBFF0000000000001, 0xBFF0000000000001);
    read(
        out,
        "between two ends",
        [x, ends(TWO, TWO + 1), ONES],
        refused_by(Reason::NoTriple),
    )
}

// Below 2 the floats are twice as dense as above, so x reaches half as far down as up.
fn read_density(out: Stdout) {
    let two = ends(TWO, TWO);
    let about_zero = ends(0xBCA0000000000000, 0x3CB0000000000000);
    read(
        out,
        "density at a power of two",
        [FINITE, two, two],
        Ok([about_zero, two, two]),
    );
    let below = ends(TWO - 1, TWO - 1);
    let nearer = ends(0xBC9FFFFFFFFFFFFF, 0x3C9FFFFFFFFFFFFF);
    read(
        out,
        "density below a power of two",
        [FINITE, below, below],
        Ok([nearer, below, below]),
    )
}

pub(crate) fn read_traps(out: Stdout) {
    read_difference(out);
    read_overlap(out);
    read_between(out);
    read_density(out)
}
