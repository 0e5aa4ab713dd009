// 01's sheets and records of each kind, run as lent lists: outcome, passes, record and the first four cells of the array. The verdict holds of the kept sheet of the same cells and records too.
ghost use Rattle.std.specs.Prelude.{◌≤◌};

use crate::cases::{CELLS, RECORDS};
use crate::lending::Case;
use crate::print::{DIFF, Ends, NEG, Named, SUM, UNKNOWN, of_kind};
use crate::reply::Reply;
use arith::interval::Interval;
use arith::refusal::Reason;
use sheet::kept::Record;
use std::io::Stdout;

// The first four cells of an array.
pub(crate) type Four = [Interval; 4];

// The interval from low to high.
pub(crate) fn span(low: u64, high: u64) -> Interval {
    Interval::new(low, high)
}

// The interval of one float.
pub(crate) fn point(p: u64) -> Interval {
    Interval::new(p, p)
}

// The pattern of n places below zero.
pub(crate) fn minus(n: u64) -> u64 {
    0x8000000000000000 | n
}

// A case at width 64 over n of these cells, after which every place is zero, and m of two records, the second in every place but the first.
fn case_of(limit: u64, given: Four, n: usize, records: [Record; 2], m: usize) -> Case
    requires { (n ≤ 66) × (m ≤ 130) }
{
    let mut cells = [point(0); CELLS];
    cells[..4].copy_from_slice(&given);
    let mut all = [records[1]; RECORDS];
    all[0] = records[0];
    Case {
        width: 64,
        limit,
        cells,
        records: all,
        cell_count: n,
        record_count: m,
    }
}

// The rest of a line for a case: its outcome and the first four cells after it, and whether they are the ones expected, of the kept sheet too.
fn read(out: Stdout, case: &Case, reply: Reply, expected: Four) {
    let limit = case.limit;
    let left = case.narrow();
    let got = left.reply;
    let _ = print!(out; ", limit {limit}: {got}, cells");
    let cells = &left.cells[..4];
    for cell in cells {
        let _ = print!(out; " {}", Ends(*cell));
    }
    let right = got == reply && cells == &expected[..] && left.alike;
    let verdict = if right {
        "as expected"
    } else {
        "NOT AS EXPECTED"
    };
    let _ = println!(out; ", {verdict}");
}

// The sums of 01's second sheet; its listing has the first of them.
fn both_sums() -> [Record; 2] {
    [of_kind(SUM, 0, 1, 2), of_kind(SUM, 2, 3, 0)]
}

// 01's listing, three cells and one sum.
fn read_listed(out: Stdout, limit: u64, reply: Reply) {
    let _ = print!(out; "lists, listing");
    let given = three([
        span(0xC630000000000000, 0xC330000000000000),
        span(0x3FF0000000000000, 0x4630000000000000),
        span(0x3FE0000000000000, 0x3FF8000000000000),
    ]);
    let expected = three([
        span(0xC33FFFFFFFFFFFFF, 0xC330000000000000),
        span(0x4330000000000001, 0x4340000000000000),
        point(0x3FF0000000000000),
    ]);
    read(
        out,
        &case_of(limit, given, 3, both_sums(), 1),
        reply,
        expected,
    )
}

// 01's sheet of two sums, whose cells 0 and 2 lose a place at each end in every pass, here both at these places.
fn two_sums(places: Interval) -> Four {
    [places, point(1), places, point(0)]
}

// A line for it, with cells 0 and 2 from low to high after the call.
fn read_two_sums(out: Stdout, limit: u64, reply: Reply, low: u64, high: u64) {
    let _ = print!(out; "lists, two sums");
    let case = case_of(limit, two_sums(span(0, 10)), 4, both_sums(), 2);
    read(out, &case, reply, two_sums(span(low, high)))
}

// Three cells. The fourth is not lent, so its zero keeps its sign.
fn three(cells: [Interval; 3]) -> Four {
    let [c0, c1, c2] = cells;
    [c0, c1, c2, point(minus(0))]
}

// Small places, where every sum is exact: cell 0 from zero with its sign set to place 9, cell 1 from -5 to 4, cell 2 from -7 to 6.
fn small() -> [Interval; 3] {
    [span(minus(0), 9), span(minus(5), 4), span(minus(7), 6)]
}

// The rest of a line for one record over three cells, with limit 10.
pub(crate) fn read_over(
    out: Stdout,
    given: [Interval; 3],
    record: Record,
    reply: Reply,
    expected: [Interval; 3],
) {
    let _ = print!(out; ", {}", Named(record));
    let case = case_of(10, three(given), 3, [record, record], 1);
    read(out, &case, reply, three(expected))
}

// A line for one over those at small places.
pub(crate) fn read_one(out: Stdout, record: Record, reply: Reply, expected: [Interval; 3]) {
    let _ = print!(out; "lists");
    read_over(out, small(), record, reply, expected)
}

// A line for two records that leave the cells as they were.
fn read_both(out: Stdout, records: [Record; 2], reply: Reply) {
    let _ = print!(out; "lists, {}, {}", Named(records[0]), Named(records[1]));
    let cells = three(small());
    read(out, &case_of(10, cells, 3, records, 2), reply, cells)
}

// A diff; a neg without cell 0, which keeps its ends, each in its one pattern; a neg with cell 0 as x, and one with it as y.
fn read_kinds(out: Stdout) {
    let c0 = span(0, 9);
    let c1 = span(minus(5), 4);
    let c2 = span(minus(4), 6);
    let mirrored = span(minus(4), 5);
    let cut = [span(0, 5), span(minus(5), 0), span(minus(7), 6)];
    for (record, expected) in [
        (of_kind(DIFF, 0, 1, 2), [c0, c1, c2]),
        (of_kind(NEG, 1, 2, 0), [c0, c1, mirrored]),
        (of_kind(NEG, 0, 1, 0), cut),
        (of_kind(NEG, 1, 0, 0), cut),
    ] {
        read_one(out, record, Reply::Settled(2), expected);
    }
}

// Refusal 4: a kind above 2, and a neg with a third number; before 5 of the same record, after 5 of an earlier one. The cells stay as they were.
fn read_refused(out: Stdout) {
    let unknown = of_kind(UNKNOWN, 0, 1, 2);
    for record in [unknown, of_kind(NEG, 0, 1, 2), of_kind(NEG, 3, 1, 2)] {
        read_one(out, record, Reply::Fault(Reason::Malformed.at(0)), small());
    }
    read_both(
        out,
        [of_kind(DIFF, 0, 1, 2), unknown],
        Reply::Fault(Reason::Malformed.at(1)),
    );
    read_both(
        out,
        [of_kind(NEG, 0, 3, 0), unknown],
        Reply::Fault(Reason::NoCell.at(0)),
    )
}

// A line for a record that has no solution over three positive cells.
pub(crate) fn read_none(out: Stdout, record: Record) {
    let _ = print!(out; "lists, positive cells");
    let given = [point(1), point(2), point(3)];
    read_over(out, given, record, Reply::NoTriple(1, 0), given)
}

// 01's sheets; of the two sums also its last trap: each sum of the first pass is cut exactly, and the second moves a cell of the first, so nothing is settled.
pub(crate) fn read_lists(out: Stdout) {
    read_listed(out, 10, Reply::Settled(2));
    read_listed(out, 1, Reply::Stopped(1));
    read_two_sums(out, 1, Reply::Stopped(1), 1, 9);
    read_two_sums(out, 5, Reply::Stopped(5), 5, 5);
    read_two_sums(out, 6, Reply::NoTriple(6, 0), 0, 10);
    read_kinds(out);
    read_none(out, of_kind(NEG, 0, 1, 0));
    read_refused(out)
}
