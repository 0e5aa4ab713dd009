// From a sheet text to its listing.
ghost use Rattle.std.specs.Prelude.{◌≡◌, []};
ghost use Rattle.listing.specs.Listings.{run_of, listing_of};
ghost use Rattle.listing.specs.Buffers.{length_after, size_in, stored_in, Writes};

use crate::writer::write_run;
use arith::refusal::Refusal;
use propagation::narrowing::{Run, narrow_sheet};
use propagation::passes::Outcome;
use reader::read::read;

// The run of a text's sheet, or the text's refusal.
#[tactic(auto, unfolding(crate::specs::Listings::run_of))]
fn run_text(text: &[u8]) -> Run
    ensures { result ≡ run_of text.now }
{
    let kept = read(text);
    match kept.answer {
        Ok(()) => narrow_sheet(kept.sheet),
        Err(r) => Run {
            sheet: kept.sheet,
            outcome: Outcome::Refused(r),
        },
    }
}

// The listing of any text, its refusal included, into a lent buffer, and its length; only 13 is refused. Bytes after the listing stay as they were.
pub fn list(text: &[u8], out: &mut [u8]) -> Result<usize, Refusal>
    ensures { Writes (size_in (listing_of (run_of text.now)) out.old) (length_after [] (listing_of (run_of text.now)) out.old) (stored_in (listing_of (run_of text.now)) out.old) out.old result out.new }
{
    let run = run_text(text);
    write_run(&run, out)
}
