// The writer: a kept sheet, narrowed, as a listing in a lent buffer.
ghost use Rattle.std.specs.Prelude.{◌≡◌, ◌≤◌, length};
ghost use Rattle.sheet.specs.Sheets.{used_cells};
ghost use Rattle.sheet.specs.Replies.{sheet_tests};
ghost use Rattle.propagation.specs.Narrowings.{narrow_sheet_of};
ghost use Rattle.listing.specs.Listings.{listing_of};
ghost use Rattle.listing.specs.Buffers.{length_after, size_in, stored_in, written_by, buffer_by, Writes};

use crate::outcome::list_outcome;
use arith::interval::Interval;
use arith::refusal::{Reason, Refusal};
use propagation::narrowing::{Run, narrow_sheet};
use propagation::passes::Outcome;
use sheet::kept::Sheet;

// Bytes into the front of a lent buffer, and how many; refusal 13 where it is too short.
#[tactic(auto, unfolding(crate::specs::Buffers::size_in, crate::specs::Buffers::stored_in))]
fn deliver(bytes: &[u8], out: &mut [u8]) -> Result<usize, Refusal>
    ensures { (result ≡ size_in bytes.now out.old) × (out.new ≡ stored_in bytes.now out.old) }
{
    let n = bytes.len();
    Reason::Short.unless(n <= out.len())?;
    out[..n].copy_from_slice(bytes);
    Ok(n)
}

// The cells in use.
#[tactic(auto, using(crate::proofs::Cells::take_used))]
fn used_cells(sheet: &Sheet) -> &[Interval]
    ensures used { result.now ≡ used_cells sheet.now }
    ensures most { length result.now ≤ 64 }
{
    let cells = &sheet.cells[..];
    let used = (sheet.cell_count as usize).min(cells.len());
    &cells[..used]
}

// The listing of a run into a lent buffer.
pub(crate) fn write_run(run: &Run, out: &mut [u8]) -> Result<usize, Refusal>
    ensures { (result ≡ size_in (listing_of run.now) out.old) × (out.new ≡ stored_in (listing_of run.now) out.old) }
{
    let lines = list_outcome(&run.outcome, run.sheet.width, used_cells(&run.sheet));
    deliver(lines.bytes(), out)
}

// Narrows a kept sheet and writes its listing: its length, or the refusal that left the buffer as it was, a sheet's refusals first and 13 last. Bytes after the listing stay as they were.
pub fn write(sheet: Sheet, out: &mut [u8]) -> Result<usize, Refusal>
    ensures { Writes (written_by (narrow_sheet_of sheet) out.old) (length_after (sheet_tests sheet) (listing_of (narrow_sheet_of sheet)) out.old) (buffer_by (narrow_sheet_of sheet) out.old) out.old result out.new }
{
    let run = narrow_sheet(sheet);
    if let Outcome::Refused(r) = run.outcome {
        return Err(r);
    }
    write_run(&run, out)
}
