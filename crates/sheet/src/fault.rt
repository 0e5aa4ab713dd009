// What is wrong with a head, a cell or a record: nothing, or the reason that it is refused for. The one place of their order.
ghost use Rattle.std.specs.Prelude.{◌≡◌};
ghost use Rattle.sheet.specs.Faults.{head_fault, cell_fault, named_fault, record_fault};

use crate::kept::Record;
use crate::kind::Kind;
use arith::interval::Interval;
use arith::refusal::Reason;
use arith::width::known;

// Nothing for a known width and an allowed pass limit, else refusal 1 or 7.
#[tactic(auto, unfolding(crate::specs::Faults::head_fault))]
pub fn head_fault(width: u64, limit: u64) -> Result<(), Reason>
    ensures { result ≡ head_fault width limit }
{
    Reason::Width.unless(known(width))?;
    Reason::Limit.unless((1..=65535).contains(&limit))
}

// Nothing for an interval of the width, else refusal 1, 2 or 3.
#[tactic(auto, unfolding(crate::specs::Faults::cell_fault))]
pub fn cell_fault(width: u64, cell: Interval) -> Result<(), Reason>
    ensures { result ≡ cell_fault width cell }
{
    match cell.canonical(width) {
        Ok(_) => Ok(()),
        Err(r) => Err(r.reason),
    }
}

// Nothing for cells that are there, else refusal 5.
fn named_fault(cell_count: u64, names: &[u64]) -> Result<(), Reason>
    ensures { result ≡ named_fault cell_count names.now }
{
    Reason::NoCell.unless(names.iter().all(|name| *name < cell_count))
}

// Nothing for a record of a known kind whose cells are there, else refusal 4 or 5. The third number of a neg is 0, else 4, and names no cell.
#[tactic(auto, unfolding(crate::specs::Faults::record_fault))]
pub fn record_fault(cell_count: u64, record: Record) -> Result<(), Reason>
    ensures { result ≡ record_fault cell_count «record» }
{
    match Kind::try_from(record.kind) {
        Ok(Kind::Sum | Kind::Diff) => named_fault(cell_count, &[record.x, record.a, record.b]),
        Ok(Kind::Neg) if record.b == 0 => named_fault(cell_count, &[record.x, record.a]),
        _ => Err(Reason::Malformed),
    }
}
