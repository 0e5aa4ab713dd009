// Adding a cell or a record to a kept sheet.
ghost use Rattle.std.specs.Prelude.{◌≡◌};
ghost use Rattle.sheet.specs.Cells.{canonical_cell};
ghost use Rattle.sheet.specs.Sheets.{tidied, with_cell, with_record, test_of, add_test, add_cell_of, add_record_of};
ghost use Rattle.sheet.specs.Replies.{add_cell_tests, add_record_tests, Keeps};

use crate::fault::{cell_fault, record_fault};
use crate::item::Item;
use crate::kept::{Kept, Record, Sheet};
use crate::testing::test_sheet;
use crate::tidying::tidy;
use arith::interval::Interval;
use arith::refusal::{Reason, Refusal};

// The test of an addition: the refusal of the sheet's test, then that of the fault, then 10 where there is no room. Its answer has no
// sheet: with the tidied one in it, a small sheet takes twice the time to build.
fn test_addition(sheet: &Sheet, fault: Result<(), Reason>, room: bool) -> Result<(), Refusal>
    ensures { result ≡ add_test (test_of sheet.now) fault room }
{
    test_sheet(sheet)?;
    fault?;
    Reason::Full.unless(room)?;
    Ok(())
}

// Beside `add_record` and not one function with it: list, count, bound and room would all be arguments. Adds a cell; refusals of the sheet, then 2, 3, 10.
pub fn add_cell(mut sheet: Sheet, cell: Interval) -> Kept
    ensures value { result ≡ add_cell_of sheet cell }
    ensures keeps { Keeps sheet (with_cell (tidied sheet) (canonical_cell sheet.width cell)) (add_cell_tests sheet cell) result }
{
    let width = sheet.width;
    let count = sheet.cell_count;
    let fault = cell_fault(width, cell);
    match test_addition(&sheet, fault, count < 64) {
        Ok(()) => {
            tidy(&mut sheet);
            sheet.cells[count as usize] = cell.tidied(width);
            sheet.cell_count = count + 1;
            Kept::done(sheet)
        }
        Err(r) => Kept::refused(sheet, r),
    }
}

// Adds a record; refusals of the sheet, then 4, 5, 10.
pub fn add_record(mut sheet: Sheet, record: Record) -> Kept
    ensures value { result ≡ add_record_of sheet «record» }
    ensures keeps { Keeps sheet (with_record (tidied sheet) «record») (add_record_tests sheet «record») result }
{
    let count = sheet.record_count;
    let fault = record_fault(sheet.cell_count, record);
    match test_addition(&sheet, fault, count < 128) {
        Ok(()) => {
            tidy(&mut sheet);
            sheet.records[count as usize] = record;
            sheet.record_count = count + 1;
            Kept::done(sheet)
        }
        Err(r) => Kept::refused(sheet, r),
    }
}
