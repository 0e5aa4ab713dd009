// What a line says.
use arith::interval::Interval;
use sheet::kept::Record;

// The head with its width and pass limit, a cell, or a record over cells.
#[derive(Clone, Copy)]
pub enum Entry {
    Head { width: u64, limit: u64 },
    Cell(Interval),
    Record(Record),
}
