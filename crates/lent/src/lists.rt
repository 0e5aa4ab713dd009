// Lent lists: the host's cells, narrowed in place, and its records. A walk between the lists and the sheet by value, which does the work.
ghost use Rattle.std.specs.Prelude.{◌≡◌, min, length};
ghost use Rattle.lent.specs.Loading.{puts, stored_cells, stored_count, sheet_of};
ghost use Rattle.propagation.specs.Calls.{lent_call, Narrows};

use arith::interval::Interval;
use propagation::narrowing::{Run, narrow_sheet};
use propagation::passes::Outcome;
use sheet::kept::{Record, Sheet, blank_sheet};

// Puts the first members of a list into the first of some places, as many as there are of both.
fn put<T: Copy>(list: &[T], places: &mut [T])
    ensures { places.new ≡ puts list.now (min (length list.now) (length places.old)) places.old }
{
    let n = list.len().min(places.len());
    places[..n].copy_from_slice(&list[..n]);
}

// The sheet of the lists: their lengths as its counts, and as many cells and records as it has places for.
#[tactic(auto, unfolding(crate::specs::Loading::sheet_of))]
fn load(width: u64, limit: u64, cells: &[Interval], records: &[Record]) -> Sheet
    ensures { result ≡ sheet_of width limit cells.now records.now }
{
    let mut sheet = blank_sheet(width, limit);
    sheet.cell_count = cells.len() as u64;
    sheet.record_count = records.len() as u64;
    put(cells, &mut sheet.cells);
    put(records, &mut sheet.records);
    sheet
}

// Stores a run's cells back into the list, where the outcome does so.
fn store(run: &Run, cells: &mut [Interval])
    ensures { cells.new ≡ stored_cells cells.old (stored_count run.now.outcome (min (length cells.old) 64)) run.now.sheet }
{
    match run.outcome {
        Outcome::Settled { .. } | Outcome::Stopped { .. } => put(&run.sheet.cells, cells),
        Outcome::NoTriple { .. } | Outcome::Refused(_) => {}
    }
}

// Narrows the cells of a list by the records of a second list until a pass moves no end, a record has no solution, or the pass limit is reached. Refusals in the order of lists; every one but 12 leaves the cells as they were.
pub fn narrow_lists(width: u64, limit: u64, cells: &mut [Interval], records: &[Record]) -> Outcome
    ensures { Narrows (lent_call width limit cells.old records.now cells.new result) }
{
    let run = narrow_sheet(load(width, limit, cells, records));
    store(&run, cells);
    run.outcome
}
