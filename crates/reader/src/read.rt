// Reads a whole text into a kept sheet. Each record takes the next place; the sheet is tested and tidied once, at the end.
ghost use Rattle.std.specs.Prelude.{◌≡◌};
ghost use Rattle.reader.specs.Readings.{HasPlace, with_entry, ReadsText};

use crate::cursor::{Cursor, next};
use crate::entry::Entry;
use sheet::accepting::accept;
use sheet::kept::{Kept, Sheet, blank_sheet};

// Puts a record in the place that comes next; a head opens the sheet.
fn put(sheet: &mut Sheet, entry: Entry)
    requires { HasPlace sheet.old entry }
    ensures { sheet.new ≡ with_entry entry sheet.old }
{
    match entry {
        Entry::Head { width, limit } => *sheet = blank_sheet(width, limit),
        Entry::Cell(cell) => {
            sheet.cells[sheet.cell_count as usize] = cell;
            sheet.cell_count += 1;
        }
        Entry::Record(record) => {
            sheet.records[sheet.record_count as usize] = record;
            sheet.record_count += 1;
        }
    }
}

// The sheet that the text describes, or the first refusal with the blank sheet.
pub fn read(text: &[u8]) -> Kept
    ensures { ReadsText text.now result }
{
    let mut cursor = Cursor::new();
    let mut sheet = blank_sheet(0, 0);
    loop {
        match next(text, cursor) {
            Ok(Some(read)) => {
                put(&mut sheet, read.entry);
                cursor = read.next;
            }
            Ok(None) => return accept(sheet),
            Err(r) => {
                return Kept {
                    sheet: blank_sheet(0, 0),
                    answer: Err(r),
                };
            }
        }
    }
}
