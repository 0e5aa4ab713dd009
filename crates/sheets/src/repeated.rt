// Records that name a cell more than once, which has one value wherever it stands.
use crate::lists::{minus, point, read_none, read_one, read_over, span};
use crate::print::{DIFF, NEG, SUM, of_kind};
use crate::reply::Reply;
use arith::interval::Interval;
use std::io::Stdout;

// Small places, where every sum is exact. Sums: x + x = b, whose b is even; x + a = x and x + a = a, with zero for the other cell; all three alike, zero. Diffs: x - x = b, whose b is zero; x - a = a, which is a + a = x; x - a = x; all three alike. A neg: y = -y.
fn read_small(out: Stdout) {
    let c0 = span(0, 9);
    let c1 = span(minus(5), 4);
    let c2 = span(minus(7), 6);
    let zero = point(0);
    let half = span(minus(3), 3);
    let even = span(minus(6), 6);
    for (record, expected) in [
        (of_kind(SUM, 1, 1, 2), [c0, half, even]),
        (of_kind(SUM, 0, 1, 0), [c0, zero, c2]),
        (of_kind(SUM, 0, 1, 1), [zero, c1, c2]),
        (of_kind(SUM, 1, 1, 1), [c0, zero, c2]),
        (of_kind(DIFF, 1, 1, 2), [c0, c1, zero]),
        (of_kind(DIFF, 0, 1, 1), [span(0, 8), span(0, 4), c2]),
        (of_kind(DIFF, 0, 1, 0), [c0, zero, c2]),
        (of_kind(DIFF, 1, 1, 1), [c0, zero, c2]),
        (of_kind(NEG, 1, 1, 0), [c0, zero, c2]),
    ] {
        read_one(out, record, Reply::Settled(2), expected);
    }
}

// A stage at rest, in cells 0 and 1, with what is left of them: x + a = x, or of a diff x - a = x.
fn read_rest(out: Stdout, kind: u64, given: [Interval; 2], left: [Interval; 2]) {
    let _ = print!(out; "lists, at rest");
    let [x, a] = given;
    let [rests, absorbed] = left;
    let zero = point(0);
    let record = of_kind(kind, 0, 1, 0);
    read_over(
        out,
        [x, a, zero],
        record,
        Reply::Settled(2),
        [rests, absorbed, zero],
    )
}

// 1 absorbs half the step above it, the tie too; its odd neighbour less than half a step; under a diff 1 absorbs half the step below it, the tie too; each of an a from zero to 1. An a from 1 to 4: of x up to 2^53 + 6 only 2^53 and 2^53 + 4 are at rest, with 1.
fn read_rests(out: Stdout) {
    let one = 0x3FF0000000000000;
    for (kind, x, most) in [
        (SUM, one, 0x3CA0000000000000),
        (SUM, one + 1, 0x3C9FFFFFFFFFFFFF),
        (DIFF, one, 0x3C90000000000000),
    ] {
        let x = point(x);
        read_rest(out, kind, [x, span(0, one)], [x, span(0, most)]);
    }
    let x = span(0xBFF0000000000000, 0x4340000000000003);
    let a = span(one, 0x4010000000000000);
    let rests = span(0x4340000000000000, 0x4340000000000002);
    read_rest(out, SUM, [x, a], [rests, point(one)])
}

// Records with a solution; and two without one: 1 + 1 = 3, and all three alike at 2.
pub(crate) fn read_repeated(out: Stdout) {
    read_small(out);
    read_rests(out);
    read_none(out, of_kind(SUM, 0, 0, 2));
    read_none(out, of_kind(SUM, 1, 1, 1))
}
