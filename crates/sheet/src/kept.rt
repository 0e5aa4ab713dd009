// The kept sheet, and the opening of one.
ghost use Rattle.std.specs.Prelude.{◌≡◌, Ok, Err};
ghost use Rattle.sheet.specs.Sheets.{blank, open_of};
ghost use Rattle.sheet.specs.Replies.{open_tests, Keeps};

use crate::fault::head_fault;
use crate::item::Item;
use arith::interval::Interval;
use arith::refusal::Refusal;

// A record over cells, by their numbers; it may name a cell more than once. Kind 0 is a sum, x + a = b; kind 1 a diff, x + (-a) = b; kind 2 a neg, a = -x, whose b is 0 and names no cell. The kind stays a number here, since any may be handed in, and one that is no kind's is refused.
#[derive(Clone, Copy, PartialEq, Eq)]
pub struct Record {
    pub kind: u64,
    pub x: u64,
    pub a: u64,
    pub b: u64,
}

// A sheet, by value and in fixed memory, as 01 names it: the first cell_count cells and the first record_count records are in use.
#[derive(Clone, Copy)]
pub struct Sheet {
    pub width: u64,
    pub limit: u64,
    pub cell_count: u64,
    pub record_count: u64,
    pub cells: [Interval; 64],
    pub records: [Record; 128],
}

// The sheet after a call, with its answer: no Result of a sheet, since a refusal hands the sheet back too. A refused addition, and a refused sheet that is handed in, leave it as it came; a refused opening or text gives the blank one.
#[derive(Clone, Copy)]
pub struct Kept {
    pub sheet: Sheet,
    pub answer: Result<(), Refusal>,
}

impl Kept {
    // The sheet that a call made.
    pub(crate) fn done(sheet: Sheet) -> Self
        ensures { result ≡ record { sheet = sheet; answer = Ok tt } }
    {
        Kept {
            sheet,
            answer: Ok(()),
        }
    }

    // The sheet as it came, with the refusal.
    pub(crate) fn refused(sheet: Sheet, r: Refusal) -> Self
        ensures { result ≡ record { sheet = sheet; answer = Err r } }
    {
        Kept {
            sheet,
            answer: Err(r),
        }
    }
}

// A sheet with nothing in use, every place zero; the width and the limit are not tested.
pub fn blank_sheet(width: u64, limit: u64) -> Sheet
    ensures { result ≡ blank width limit }
{
    Sheet {
        width,
        limit,
        cell_count: 0,
        record_count: 0,
        cells: [Interval::UNUSED; 64],
        records: [Record::UNUSED; 128],
    }
}

// Opens a sheet; refusals 1, 7. A refusal gives the blank sheet of width 0 and limit 0.
#[tactic(auto, unfolding(crate::specs::Sheets::open_of), using(crate::proofs::Replies::open_keeps))]
pub fn open(width: u64, limit: u64) -> Kept
    ensures value { result ≡ open_of width limit }
    ensures keeps { Keeps (blank 0 0) (blank width limit) (open_tests width limit) result }
{
    match head_fault(width, limit) {
        Ok(()) => Kept::done(blank_sheet(width, limit)),
        Err(reason) => Kept::refused(blank_sheet(0, 0), reason.at(0)),
    }
}
