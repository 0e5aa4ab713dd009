// A call over the first members of two arrays, which are lent, and the kept sheet of the same cells and records.
ghost use Rattle.std.specs.Prelude.{◌≤◌};

use crate::cases::{CELLS, RECORDS};
use crate::reply::Reply;
use arith::interval::Interval;
use lent::lists::narrow_lists;
use propagation::narrowing::narrow_sheet;
use sheet::kept::{Record, Sheet};

// The first cell_count cells and the first record_count records are lent; what lies after them is looked at too, so the arrays are longer.
#[derive(Drop)]
pub(crate) struct Case {
    pub(crate) width: u64,
    pub(crate) limit: u64,
    pub(crate) cells: [Interval; CELLS],
    pub(crate) records: [Record; RECORDS],
    pub(crate) cell_count: usize,
    pub(crate) record_count: usize,
    ghost inside: { (cell_count ≤ 66) × (record_count ≤ 130) },
}

// What a call over lent lists leaves: the array, how it ended, and whether the kept sheet ends alike.
#[derive(Drop)]
pub(crate) struct Left {
    pub(crate) cells: [Interval; CELLS],
    pub(crate) reply: Reply,
    pub(crate) alike: bool,
}

impl Case {
    // The same in the places of a sheet, which the lists may be too long for.
    fn sheet(&self) -> Sheet {
        Sheet {
            width: self.width,
            limit: self.limit,
            cell_count: self.cell_count as u64,
            record_count: self.record_count as u64,
            cells: *self.cells.first_chunk().unwrap(),
            records: *self.records.first_chunk().unwrap(),
        }
    }

    // Of the array what is lent and stored is as in the sheet, and the rest as it was.
    pub(crate) fn narrow(&self) -> Left {
        let mut cells = self.cells;
        let lent = &mut cells[..self.cell_count];
        let records = &self.records[..self.record_count];
        let reply = Reply::from(narrow_lists(self.width, self.limit, lent, records));
        let run = narrow_sheet(self.sheet());
        let n = if reply.stores() {
            self.cell_count.min(64)
        } else {
            0
        };
        let stored = cells[..n] == run.sheet.cells[..n];
        let others = cells[n..] == self.cells[n..];
        let alike = reply == Reply::from(run.outcome) && stored && others;
        Left {
            cells,
            reply,
            alike,
        }
    }
}
