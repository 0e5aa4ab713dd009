// What a line shows: patterns as their width writes them, an answer or its refusal, and whether that was expected.
use arith::interval::Interval;
use arith::refusal::{Reason, Refusal};
use std::fmt;
use std::io::Stdout;

// Patterns of a width, each after a space.
#[derive(Clone, Copy)]
pub(crate) struct At<'a>(pub(crate) u64, pub(crate) &'a [u64]);

impl fmt::Display for At<'_> {
    // Eight digits at width 32 where they hold the pattern, else sixteen.
    fn fmt<W: fmt::Write>(&self, f: &mut fmt::Formatter<W>) -> fmt::Result {
        for p in self.1 {
            if self.0 == 32 && *p < 0x1_0000_0000 {
                write!(f, " {p:08X}")?;
            } else {
                write!(f, " {p:016X}")?;
            }
        }
        Ok(())
    }
}

// An interval's ends at a width, low then high.
#[derive(Clone, Copy)]
pub(crate) struct EndsAt(pub(crate) u64, pub(crate) Interval);

impl fmt::Display for EndsAt {
    fn fmt<W: fmt::Write>(&self, f: &mut fmt::Formatter<W>) -> fmt::Result {
        let i = self.1;
        write!(f, "{}", At(self.0, &[i.low, i.high]))
    }
}

// The refusal for this reason at place 0.
pub(crate) fn refused_by<A>(reason: Reason) -> Result<A, Refusal> {
    Err(reason.at(0))
}

// What a call answers where it does not refuse.
pub(crate) trait Answer: PartialEq {
    // The answer, patterns as the width writes them.
    fn show(&self, out: Stdout, width: u64);
}

// The rest of a line: the answer, and whether it is the one expected.
pub(crate) fn conclude<A: Answer>(
    out: Stdout,
    width: u64,
    got: &Result<A, Refusal>,
    expected: bool,
) {
    match got {
        Ok(answer) => answer.show(out, width),
        Err(r) => {
            let _ = print!(out; " refused {}", r.reason.number());
        }
    }
    let verdict = if expected {
        "as expected"
    } else {
        "NOT AS EXPECTED"
    };
    let _ = println!(out; ", {verdict}");
}
