// Kept sheets made call by call, and sheets handed in: a line for each call, with its answer and the counts and cell 0 of the sheet that it leaves.
use crate::print::{DIFF, Ends, NEG, Named, SUM, UNKNOWN, of_kind};
use arith::interval::Interval;
use sheet::accepting::accept;
use sheet::adding::{add_cell, add_record};
use sheet::kept::{Kept, Sheet, blank_sheet, open};
use std::io::Stdout;

// How many cells and records are in use.
fn put_counts(out: Stdout, sheet: Sheet) {
    let _ = print!(out; ", counts {} {}", sheet.cell_count, sheet.record_count);
}

// The rest of a call's line, and its sheet.
fn conclude(out: Stdout, kept: Kept) -> Sheet {
    let sheet = kept.sheet;
    match kept.answer {
        Ok(()) => {
            let _ = print!(out; ": done");
        }
        Err(refused) => {
            let _ = print!(out; ": {refused}");
        }
    }
    put_counts(out, sheet);
    let _ = println!(out; ", cell 0 {}", Ends(sheet.cells[0]));
    sheet
}

// A line for each call: the opening of a sheet, a cell added, a record added.
fn opened(out: Stdout, width: u64, limit: u64) -> Sheet {
    let _ = print!(out; "open {width} {limit}");
    conclude(out, open(width, limit))
}

fn with_cell(out: Stdout, sheet: Sheet, low: u64, high: u64) -> Sheet {
    let cell = Interval::new(low, high);
    let _ = print!(out; "add cell {}", Ends(cell));
    conclude(out, add_cell(sheet, cell))
}

fn with_record(out: Stdout, sheet: Sheet, kind: u64, x: u64, a: u64, b: u64) -> Sheet {
    let record = of_kind(kind, x, a, b);
    let _ = print!(out; "add {}", Named(record));
    conclude(out, add_record(sheet, record))
}

// The sheet of 01's listing.
fn listing(out: Stdout) -> Sheet {
    let s = opened(out, 64, 10);
    let s = with_cell(out, s, 0xC630000000000000, 0xC330000000000000);
    let s = with_cell(out, s, 0x3FF0000000000000, 0x4630000000000000);
    let s = with_cell(out, s, 0x3FE0000000000000, 0x3FF8000000000000);
    with_record(out, s, SUM, 0, 1, 2)
}

// Calls that a sheet of three cells with room refuses: 2, 3; 4 before 5, for each kind. It stays as it was.
fn refuse_faults(out: Stdout, sheet: Sheet) -> Sheet {
    let s = with_cell(out, sheet, 1, 0x7FF0000000000000);
    let s = with_cell(out, s, 1, 0);
    let s = with_record(out, s, UNKNOWN, 3, 3, 3);
    let s = with_record(out, s, NEG, 3, 3, 1);
    let s = with_record(out, s, SUM, 0, 0, 3);
    let s = with_record(out, s, DIFF, 0, 0, 3);
    with_record(out, s, NEG, 3, 3, 0)
}

// A record of each kind that names a cell more than once is added like any other.
fn repeat_cells(out: Stdout, sheet: Sheet) {
    let s = with_record(out, sheet, SUM, 0, 1, 0);
    let s = with_record(out, s, DIFF, 0, 1, 1);
    with_record(out, s, NEG, 1, 1, 0);
}

// A faultless sheet of 64 cells and 128 records: 10 after the faults of what is added.
fn refuse_room(out: Stdout) {
    let mut s = blank_sheet(64, 1);
    s.cell_count = 64;
    s.record_count = 128;
    s.records = [of_kind(SUM, 0, 1, 2); 128];
    let s = with_cell(out, s, 1, 0);
    let s = with_cell(out, s, 0, 0);
    let s = with_record(out, s, SUM, 0, 0, 64);
    let s = with_record(out, s, SUM, 0, 0, 2);
    with_record(out, s, NEG, 0, 1, 0);
}

// A sheet handed in: every cell zero with its sign set, every record the sum of cells 0 and 1.
fn handed(width: u64, limit: u64, n: u64, m: u64) -> Sheet {
    Sheet {
        width,
        limit,
        cell_count: n,
        record_count: m,
        cells: [Interval::new(0x8000000000000000, 0x8000000000000000); 64],
        records: [of_kind(SUM, 0, 1, 2); 128],
    }
}

// A line for a sheet handed in, with its cell 2 and its record 1.
fn read_accepted(out: Stdout, sheet: Sheet) {
    let _ = print!(out; "accept {} {}", sheet.width, sheet.limit);
    put_counts(out, sheet);
    let cell = Ends(sheet.cells[2]);
    let record = Named(sheet.records[1]);
    let _ = print!(out; ", cell 2 {cell}, record 1 {record}");
    conclude(out, accept(sheet));
}

fn with_cell_2(low: u64, high: u64) -> Sheet {
    let mut s = handed(64, 1, 3, 2);
    s.cells[2] = Interval::new(low, high);
    s
}

fn with_record_1(kind: u64, x: u64, a: u64, b: u64) -> Sheet {
    let mut s = handed(64, 1, 3, 2);
    s.records[1] = of_kind(kind, x, a, b);
    s
}

// Sheets handed in, tested in the order of lists: head, counts, a cell and a record by their index; two that are faultless, which get zero's one pattern.
fn read_handed(out: Stdout) {
    for (width, limit, n, m) in [
        (48, 0, 65, 129),
        (64, 65536, 65, 129),
        (64, 1, u64::MAX, 129),
        (64, 1, 64, u64::MAX),
    ] {
        read_accepted(out, handed(width, limit, n, m));
    }
    for high in [0x7FF0000000000000, 0] {
        read_accepted(out, with_cell_2(1, high));
    }
    for (kind, x, a, b) in [
        (u64::MAX, 3, 3, 3),
        (NEG, 3, 3, 1),
        (DIFF, 0, 0, 3),
        (SUM, 0, 1, 1),
        (NEG, 0, 1, 0),
    ] {
        read_accepted(out, with_record_1(kind, x, a, b));
    }
}

// A faulty sheet is refused before what is added to it, with the index as place.
fn refuse_faulty(out: Stdout) {
    let s = with_record_1(DIFF, 0, 1, 3);
    let s = with_cell(out, s, 1, 0);
    with_record(out, s, UNKNOWN, 0, 1, 2);
}

// 01's listing as a kept sheet, after what it refuses; the refusals of the other calls.
pub(crate) fn build(out: Stdout) -> Sheet {
    opened(out, 48, 0);
    opened(out, 32, 0);
    opened(out, 32, 65536);
    read_handed(out);
    refuse_faulty(out);
    refuse_room(out);
    let s = refuse_faults(out, listing(out));
    repeat_cells(out, s);
    s
}
