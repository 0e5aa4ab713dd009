// The run: passes around records, from the cells first given until a pass moves no end, a record has no solution, or the pass limit is reached.
ghost use Rattle.propagation.specs.Loops.{Ready, EndsAs};
ghost use Rattle.propagation.specs.Narrowings.{end_of};

use crate::step::Held;
use arith::interval::Interval;
use arith::narrow::Narrowed;
use arith::refusal::Refusal;
use sheet::kept::Sheet;

// How a run ended, by pass and record, both as 01 counts them; or the refusal of the sheet.
// Not a Result, which would be no plainer: three cases say how a run ended, and two of them, 11 and 12, are refusals of 01 too.
#[derive(Clone, Copy, PartialEq, Eq)]
pub enum Outcome {
    Settled { passes: u64 },
    NoTriple { pass: u64, record: u64 },
    Stopped { passes: u64 },
    Refused(Refusal),
}

// How a run ended, with the cells as they then were.
#[derive(Clone, Copy)]
pub(crate) struct Halted {
    pub(crate) outcome: Outcome,
    pub(crate) cells: [Interval; 64],
}

// The run on a sheet that is tested and tidied, by the two loops that 01 names. The third number of a neg is 0, so cell 0 is written back as it was, before a neg's own cells are written. A cell that a record names more than once gets the same interval each time.
pub(crate) fn run_passes(sheet: Sheet) -> Halted
    requires { Ready sheet }
    ensures { EndsAs sheet result (end_of sheet) }
{
    let width = sheet.width;
    let limit = sheet.limit;
    let count = sheet.cell_count;
    let n = sheet.record_count;
    let records = sheet.records;
    let mut cells = sheet.cells;
    let mut pass: u64 = 1;
    let outcome = 'passes: loop {
        let before = cells;
        // k stays a u64, since the outcome names the record by it.
        'records: for k in 0..n {
            let record = records[k as usize];
            let held = Held {
                width,
                x: cells[record.x as usize],
                a: cells[record.a as usize],
                b: cells[record.b as usize],
            };
            let Ok(Narrowed { x, a, b }) = held.narrow_record(record) else {
                break 'passes Outcome::NoTriple { pass, record: k };
            };
            cells[record.b as usize] = b;
            cells[record.a as usize] = a;
            cells[record.x as usize] = x;
        }
        if before[..count as usize] == cells[..count as usize] {
            break 'passes Outcome::Settled { passes: pass };
        }
        if limit <= pass {
            break 'passes Outcome::Stopped { passes: pass };
        }
        pass += 1;
    };
    Halted { outcome, cells }
}
