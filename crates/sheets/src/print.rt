// What lines show of intervals and records.
use arith::interval::Interval;
use sheet::kept::Record;
use sheet::kind::Kind;
use std::fmt;

// The kinds of records that there are, and one that there is not: numbers, since a record that is handed in may hold any.
pub(crate) const SUM: u64 = Kind::Sum as u64;

pub(crate) const DIFF: u64 = Kind::Diff as u64;

pub(crate) const NEG: u64 = Kind::Neg as u64;

pub(crate) const UNKNOWN: u64 = 3;

// A record of this kind over cells.
pub(crate) fn of_kind(kind: u64, x: u64, a: u64, b: u64) -> Record {
    Record { kind, x, a, b }
}

// An interval by its ends at width 64.
#[derive(Clone, Copy)]
pub(crate) struct Ends(pub(crate) Interval);

impl fmt::Display for Ends {
    fn fmt<W: fmt::Write>(&self, f: &mut fmt::Formatter<W>) -> fmt::Result {
        let Interval { low, high } = self.0;
        write!(f, "{low:016X} {high:016X}")
    }
}

// A record by the word for its kind, or by the kind where there is none, and its three numbers.
#[derive(Clone, Copy)]
pub(crate) struct Named(pub(crate) Record);

impl fmt::Display for Named {
    fn fmt<W: fmt::Write>(&self, f: &mut fmt::Formatter<W>) -> fmt::Result {
        let Record { kind, x, a, b } = self.0;
        match Kind::try_from(kind) {
            Ok(Kind::Sum) => write!(f, "sum")?,
            Ok(Kind::Diff) => write!(f, "diff")?,
            Ok(Kind::Neg) => write!(f, "neg")?,
            Err(_) => write!(f, "kind {kind}")?,
        }
        write!(f, " {x} {a} {b}")
    }
}
