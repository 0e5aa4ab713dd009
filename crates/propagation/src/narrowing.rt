// Narrowing a kept sheet.
ghost use Rattle.std.specs.Prelude.{◌≡◌};
ghost use Rattle.propagation.specs.Loops.{EndsAs};
ghost use Rattle.propagation.specs.Narrowings.{end_of, ran_on, NarrowsSheet};
ghost use Rattle.sheet.specs.Sheets.{tidied};

use crate::passes::{Halted, Outcome, run_passes};
use sheet::accepting::accept;
use sheet::kept::Sheet;

// The sheet after a run, with its outcome.
#[derive(Clone, Copy)]
pub struct Run {
    pub sheet: Sheet,
    pub outcome: Outcome,
}

// The answer of a run on the tidied sheet: under 'no triple' the sheet as it came, else the one with the cells it ended with.
#[tactic(auto, using(crate::proofs::Finishing::finish_box))]
fn finish(sheet: Sheet, tidy: Sheet, halted: Halted) -> Run
    requires { (tidy ≡ tidied sheet) × (EndsAs tidy halted (end_of tidy)) }
    ensures { result ≡ ran_on sheet (end_of tidy) }
{
    let outcome = halted.outcome;
    if let Outcome::NoTriple { .. } = outcome {
        return Run { sheet, outcome };
    }
    let cells = halted.cells;
    Run {
        sheet: Sheet { cells, ..tidy },
        outcome,
    }
}

// Narrows the cells of a sheet by its records until a pass moves no end, a record has no solution, or the pass limit is reached. The sheet's own refusals first; 11 leaves the sheet as it came, 12 with the box after the last pass.
#[tactic(auto, using(crate::proofs::Finishing::accepted_tidied))]
pub fn narrow_sheet(sheet: Sheet) -> Run
    ensures { NarrowsSheet sheet result }
{
    let kept = accept(sheet);
    match kept.answer {
        Ok(()) => finish(sheet, kept.sheet, run_passes(kept.sheet)),
        Err(r) => Run {
            sheet,
            outcome: Outcome::Refused(r),
        },
    }
}
