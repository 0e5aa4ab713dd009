// The test of a sheet handed in, in the order of lists.
ghost use Rattle.std.specs.Prelude.{◌≡◌};
ghost use Rattle.sheet.specs.Sheets.{first_fault, test_of};

use crate::fault::head_fault;
use crate::item::Item;
use crate::kept::Sheet;
use arith::refusal::{Reason, Refusal};

// The first item with a fault, at its index.
fn first_fault<T: Item>(bound: u64, items: &[T]) -> Result<(), Refusal>
    ensures { result ≡ first_fault (T.fault bound) 0 items.now }
{
    for (i, item) in items.iter().enumerate() {
        if let Err(reason) = item.fault(bound) {
            return Err(reason.at(i as u64));
        }
    }
    Ok(())
}

// The first refusal of a sheet, if there is one.
#[tactic(auto, unfolding(crate::specs::Sheets::test_lists))]
pub(crate) fn test_sheet(sheet: &Sheet) -> Result<(), Refusal>
    ensures { result ≡ test_of sheet.now }
{
    head_fault(sheet.width, sheet.limit)?;
    if 64 < sheet.cell_count {
        return Err(Reason::Full.at(64));
    }
    if 128 < sheet.record_count {
        return Err(Reason::Full.at(128));
    }
    first_fault(sheet.width, &sheet.cells[..sheet.cell_count as usize])?;
    first_fault(
        sheet.cell_count,
        &sheet.records[..sheet.record_count as usize],
    )
}
