// Accepting a sheet that is handed in: tested in the order of lists, and in the form that every result has.
ghost use Rattle.std.specs.Prelude.{◌≡◌};
ghost use Rattle.sheet.specs.Sheets.{tidied, accept_of};
ghost use Rattle.sheet.specs.Replies.{sheet_tests, Keeps};

use crate::kept::{Kept, Sheet};
use crate::testing::test_sheet;
use crate::tidying::tidy;

// The sheet with each end in its one pattern and unused places zero; refusals in the order of lists.
#[tactic(auto, unfolding(crate::specs::Sheets::accept_of), using(crate::proofs::Replies::accept_keeps))]
pub fn accept(mut sheet: Sheet) -> Kept
    ensures value { result ≡ accept_of sheet }
    ensures keeps { Keeps sheet (tidied sheet) (sheet_tests sheet) result }
{
    match test_sheet(&sheet) {
        Ok(()) => {
            tidy(&mut sheet);
            Kept::done(sheet)
        }
        Err(r) => Kept::refused(sheet, r),
    }
}
