// Kept sheets of pseudo-random words, each handed to every call that takes a sheet, and whether the answers agree.
ghost use Rattle.std.specs.Prelude.{◌<◌};

use crate::cases::{Words, make_cells, make_records, next_word};
use crate::print::{UNKNOWN, of_kind};
use crate::reply::Reply;
use crate::tally::Tally;
use crate::writing::untouched;
use arith::interval::Interval;
use arith::refusal::{Reason, Refusal};
use listing::writer::write;
use propagation::narrowing::narrow_sheet;
use sheet::accepting::accept;
use sheet::adding::{add_cell, add_record};
use sheet::kept::Sheet;
use std::io::Stdout;

// How many sheets are handed in.
const SHEETS: u64 = 500;

// A word, or a number below n.
fn below(n: u64, w: u64) -> u64
    requires { 0 < n }
{
    match w % 16 {
        0 => w,
        _ => (w >> 4) % n,
    }
}

// A sheet: width, limit and counts of any kind, cells and records partly faulty, all places filled.
fn sheet_of(w: u64) -> Sheet {
    let v = next_word(w);
    let u = next_word(v);
    let width = match w % 8 {
        0 => w,
        1..=3 => 32,
        _ => 64,
    };
    let calm = v % 2 == 0;
    let cell_count = below(67, u);
    Sheet {
        width,
        limit: below(12, v >> 1),
        cell_count,
        record_count: below(9, u >> 16),
        cells: *make_cells(width, calm, u).first_chunk().unwrap(),
        records: *make_records(cell_count, calm, next_word(u))
            .first_chunk()
            .unwrap(),
    }
}

// The refusal due of a sheet, else this one at place 0.
fn unless_refused(due: Result<(), Refusal>, reason: Reason) -> Result<(), Refusal> {
    due.and(Err(reason.at(0)))
}

// Whether a sheet is accepted unless it is refused, and then refuses a cell that is out of order and a record of an unknown kind.
fn kept_as_due(sheet: Sheet, due: Result<(), Refusal>) -> bool {
    let accepted = accept(sheet).answer;
    let with_cell = add_cell(sheet, Interval::new(1, 0)).answer;
    let with_record = add_record(sheet, of_kind(UNKNOWN, 0, 1, 2)).answer;
    accepted == due
        && with_cell == unless_refused(due, Reason::Reversed)
        && with_record == unless_refused(due, Reason::Malformed)
}

// Whether a sheet is written unless it is refused, and then refused with 13 in four bytes; the bytes after its listing stay.
fn written_as_due(sheet: Sheet, due: Result<(), Refusal>) -> bool {
    let mut room = [255u8; 4096];
    let mut short = [255u8; 4];
    let length = write(sheet, &mut room);
    let refusal = write(sheet, &mut short);
    length.map(|_| ()) == due
        && refusal.map(|_| ()) == unless_refused(due, Reason::Short)
        && untouched(&room, length.unwrap_or(0))
        && untouched(&short, 0)
}

pub(crate) fn read_garbage(out: Stdout) {
    let mut tally = Tally::default();
    let mut words = Words::new(88172645463325252);
    for _ in 0..SHEETS {
        let sheet = sheet_of(words.next());
        let reply = Reply::from(narrow_sheet(sheet).outcome);
        let due = reply.refusal();
        tally.count(reply, kept_as_due(sheet, due) && written_as_due(sheet, due));
    }
    let _ = println!(out; "sheets {tally}");
}
