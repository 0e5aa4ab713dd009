// How calls end, to be compared and shown.
use arith::refusal::Refusal;
use propagation::passes::Outcome;
use std::fmt;

// Beside `Outcome`, so that a table of cases says a reply in one word and its numbers. How a run ended: settled or stopped with the passes, no triple with pass and record, or refused.
#[derive(Clone, Copy, PartialEq, Eq)]
pub(crate) enum Reply {
    Settled(u64),
    Stopped(u64),
    NoTriple(u64, u64),
    Fault(Refusal),
}

impl Reply {
    // The refusal of a run, if it was refused.
    pub(crate) fn refusal(self) -> Result<(), Refusal> {
        match self {
            Reply::Fault(refused) => Err(refused),
            _ => Ok(()),
        }
    }

    // Whether a run that ended so has stored its box.
    pub(crate) fn stores(self) -> bool {
        matches!(self, Reply::Settled(_) | Reply::Stopped(_))
    }
}

impl From<Outcome> for Reply {
    fn from(outcome: Outcome) -> Reply {
        match outcome {
            Outcome::Settled { passes } => Reply::Settled(passes),
            Outcome::NoTriple { pass, record } => Reply::NoTriple(pass, record),
            Outcome::Stopped { passes } => Reply::Stopped(passes),
            Outcome::Refused(r) => Reply::Fault(r),
        }
    }
}

impl fmt::Display for Reply {
    fn fmt<W: fmt::Write>(&self, f: &mut fmt::Formatter<W>) -> fmt::Result {
        match self {
            Reply::Settled(passes) => write!(f, "settled {passes} 0"),
            Reply::Stopped(passes) => write!(f, "stopped {passes} 0"),
            Reply::NoTriple(pass, record) => write!(f, "none {pass} {record}"),
            Reply::Fault(refused) => write!(f, "{refused}"),
        }
    }
}
