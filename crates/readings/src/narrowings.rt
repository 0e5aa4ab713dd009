// 01's narrowings of one sum, and each refusal with its order.
use crate::intervals::ends;
use crate::named::{
    INFINITE, LARGE, LARGEST, LARGEST_32, LEAST, LEAST_32, MINUS_INFINITE, MINUS_LARGE,
    MINUS_TWICE_LARGE, MINUS_ZERO, ONE, ONE_32, TIE_ABOVE, TIE_BELOW, TWICE_LARGE, TWO,
};
use crate::print::{Answer, EndsAt, conclude, refused_by};
use arith::interval::Interval;
use arith::narrow::{Narrowed, narrow};
use arith::refusal::{Reason, Refusal};
use std::io::Stdout;

// x, a and b.
pub(crate) type Three = [Interval; 3];

impl Answer for Three {
    fn show(&self, out: Stdout, width: u64) {
        let [x, a, b] = *self;
        let _ = print!(out;
            " ={}{}{}",
            EndsAt(width, x),
            EndsAt(width, a),
            EndsAt(width, b)
        );
    }
}

// What a narrowing answers.
fn answer_of(answer: Result<Narrowed, Refusal>) -> Result<Three, Refusal> {
    answer.map(|n| [n.x, n.a, n.b])
}

// A line with the intervals given, the answer, and whether it is the one expected, in integers and by the machine's floats.
pub(crate) fn read_narrowing(
    out: Stdout,
    width: u64,
    given: Three,
    expected: Result<Three, Refusal>,
) {
    let [x, a, b] = given;
    let _ = print!(out;
        "narrow {width}{}{}{}",
        EndsAt(width, x),
        EndsAt(width, a),
        EndsAt(width, b)
    );
    let got = answer_of(narrow(width, x, a, b));
    let fast = answer_of(machine::narrow::narrow(width, x, a, b));
    conclude(out, width, &got, got == expected && fast == expected)
}

// The finite floats of width 64, and 1.
pub(crate) const FINITE: Interval = Interval {
    low: LEAST,
    high: LARGEST,
};

pub(crate) const ONES: Interval = Interval {
    low: ONE,
    high: ONE,
};

// 01's narrowings.
fn read_starred(out: Stdout) {
    let small = ends(TIE_BELOW, TIE_ABOVE);
    read_narrowing(out, 64, [FINITE, ONES, ONES], Ok([small, ONES, ONES]));
    let finite = ends(LEAST_32, LARGEST_32);
    let ones = ends(ONE_32, ONE_32);
    let small = ends(0xB3000000, 0x33800000);
    read_narrowing(out, 32, [finite, ones, ones], Ok([small, ones, ones]));
    let twos = ends(TWO, TWO + 1);
    let minus_ones = ends(0xBFF0000000000002, 0xBFEFFFFFFFFFFFFF);
    read_narrowing(out, 64, [FINITE, twos, ONES], Ok([minus_ones, twos, ONES]));
    let large = ends(LARGE, TWICE_LARGE);
    let minus_large = ends(MINUS_TWICE_LARGE, MINUS_LARGE);
    read_narrowing(
        out,
        64,
        [large, minus_large, ONES],
        refused_by(Reason::NoTriple),
    )
}

// The sum of 01's listing.
fn read_listing(out: Stdout) {
    let x = ends(0xC630000000000000, 0xC330000000000000);
    let a = ends(ONE, 0x4630000000000000);
    let b = ends(0x3FE0000000000000, 0x3FF8000000000000);
    let narrowed_x = ends(0xC33FFFFFFFFFFFFF, 0xC330000000000000);
    let narrowed_a = ends(0x4330000000000001, 0x4340000000000000);
    read_narrowing(out, 64, [x, a, b], Ok([narrowed_x, narrowed_a, ONES]))
}

// Zero in its one pattern, the largest floats, all floats.
fn read_extremes(out: Stdout) {
    let zero = ends(0, 0);
    let minus_zero = ends(MINUS_ZERO, MINUS_ZERO);
    let about_zero = ends(MINUS_ZERO, 1);
    read_narrowing(
        out,
        64,
        [minus_zero, zero, about_zero],
        Ok([zero, zero, zero]),
    );
    let largest = ends(LARGEST, LARGEST);
    let positive = ends(0, LARGEST);
    let lost = ends(0, 0x7C8FFFFFFFFFFFFF);
    read_narrowing(
        out,
        64,
        [largest, positive, FINITE],
        Ok([largest, lost, largest]),
    );
    read_narrowing(
        out,
        64,
        [FINITE, FINITE, FINITE],
        Ok([FINITE, FINITE, FINITE]),
    )
}

// Refusals 1; 2 for each end; 3 for x, a, b.
fn read_refusals(out: Stdout) {
    let crossed = ends(TWO, ONE);
    let infinite = ends(0, INFINITE);
    let infinite_low = ends(MINUS_INFINITE, 0);
    for (width, given, reason) in [
        (48, [infinite, crossed, crossed], Reason::Width),
        (64, [infinite_low, crossed, ONES], Reason::NotFinite),
        (64, [infinite, crossed, ONES], Reason::NotFinite),
        (64, [crossed, infinite, ONES], Reason::NotFinite),
        (64, [crossed, ONES, infinite], Reason::NotFinite),
        (64, [crossed, ONES, ONES], Reason::Reversed),
        (64, [ONES, crossed, ONES], Reason::Reversed),
        (64, [ONES, ONES, crossed], Reason::Reversed),
        (64, [ONES, ONES, ONES], Reason::NoTriple),
        (32, [ONES, ONES, ONES], Reason::NotFinite),
    ] {
        read_narrowing(out, width, given, refused_by(reason));
    }
}

pub(crate) fn read_narrowings(out: Stdout) {
    read_starred(out);
    read_listing(out);
    read_extremes(out);
    read_refusals(out)
}
