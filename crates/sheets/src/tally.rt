// What was compared: how many calls, how they ended, and how many differed.
use crate::reply::Reply;
use std::fmt;

// Counts of calls, those of refusals by their numbers.
#[derive(Drop, Default)]
pub(crate) struct Tally {
    settled: u64,
    stopped: u64,
    no_triple: u64,
    refused: [u64; 16],
    differed: u64,
}

impl Tally {
    // One call more, that ended so, and agreed or differed.
    pub(crate) fn count(&mut self, reply: Reply, agrees: bool) {
        let counted = match reply {
            Reply::Settled(_) => &mut self.settled,
            Reply::Stopped(_) => &mut self.stopped,
            Reply::NoTriple(..) => &mut self.no_triple,
            Reply::Fault(refused) => &mut self.refused[(refused.reason.number() % 16) as usize],
        };
        *counted = counted.wrapping_add(1);
        self.differed = self.differed.wrapping_add(u64::from(!agrees));
    }
}

impl fmt::Display for Tally {
    // Of the refusals each one that came.
    fn fmt<W: fmt::Write>(&self, f: &mut fmt::Formatter<W>) -> fmt::Result {
        write!(
            f,
            "settled {}, stopped {}, no triple {}",
            self.settled, self.stopped, self.no_triple,
        )?;
        for (number, n) in self.refused.iter().enumerate() {
            if *n != 0 {
                write!(f, ", refused {number}: {n}")?;
            }
        }
        write!(f, "; differed {}", self.differed)
    }
}
