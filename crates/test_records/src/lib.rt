// One record over three cells, narrowed for C, for the native tests alone. Rests on the contracts of the crates `arith`, `sheet` and `propagation`.
#![tactic(auto)]

ghost use Rattle.std.specs.Prelude.{◌≡◌};
ghost use Rattle.propagation.specs.Calls.{outcome_number};
ghost use Rattle.test_records.specs.Records.{sheet_with, ends_of, NarrowsRecord};

use arith::interval::Interval;
use propagation::narrowing::narrow_sheet;
use propagation::passes::Outcome;
use sheet::kept::{Record, Sheet, blank_sheet};

// The sheet of three cells, by their low and high ends in turn, and one record, with pass limit 1; nothing is tested, and its ends are those given.
fn sheet_with(width: u64, ends: [u64; 6], record: Record) -> Sheet
    ensures value { result ≡ sheet_with width ends «record» }
    ensures own_ends { ends_of result ≡ ends }
{
    let mut sheet = blank_sheet(width, 1);
    sheet.cell_count = 3;
    sheet.record_count = 1;
    sheet.cells[0] = Interval::new(ends[0], ends[1]);
    sheet.cells[1] = Interval::new(ends[2], ends[3]);
    sheet.cells[2] = Interval::new(ends[4], ends[5]);
    sheet.records[0] = record;
    sheet
}

// The ends of a sheet's first three cells, low and high in turn.
fn ends_of(sheet: Sheet) -> [u64; 6]
    ensures { result ≡ ends_of sheet }
{
    let [p, q, r, ..] = sheet.cells;
    [p.low, p.high, q.low, q.high, r.low, r.high]
}

// 0 settled, 11 no triple, 12 stopped, else the refusal's number.
fn number_of(outcome: Outcome) -> u64
    ensures { result ≡ outcome_number outcome }
{
    match outcome {
        Outcome::Settled { .. } => 0,
        Outcome::NoTriple { .. } => 11,
        Outcome::Stopped { .. } => 12,
        Outcome::Refused(refusal) => refusal.reason.number(),
    }
}

// One record over three cells, narrowed in one pass, all taken as they come: the outcome's number, with the cells' ends after it in `ends`. Every refusal but 12 leaves them as they were.
#[unsafe(no_mangle)]
pub extern "C" fn test_narrow_record(
    width: u64,
    kind: u64,
    x: u64,
    a: u64,
    b: u64,
    ends: &mut [u64; 6],
) -> u64
    ensures { NarrowsRecord (sheet_with width ends.old (record { kind = kind; x = x; a = a; b = b })) ends.old result ends.new }
{
    let run = narrow_sheet(sheet_with(width, *ends, Record { kind, x, a, b }));
    *ends = ends_of(run.sheet);
    number_of(run.outcome)
}
