// Refusals: a reason, which has a number of 01's, and a place; and the test that gives one.
ghost use Rattle.std.specs.Prelude.{◌≡◌, Some};
ghost use Rattle.arith.specs.Refusals.{number, refusal, refusal_at, refusal_text, tested};

use std::error::Error;
use std::fmt;

// Why a request is refused, by 01's numbers. 6 is retired, and 12 is no refusal of what is handed in.
#[derive(Clone, Copy, Debug, PartialEq, Eq)]
pub enum Reason {
    // the width is not known
    Width = 1,
    // a pattern is not finite
    NotFinite = 2,
    // low is above high
    Reversed = 3,
    // a record or a line is malformed or unknown
    Malformed = 4,
    // a record names a cell that is not there
    NoCell = 5,
    // the pass limit is not allowed
    Limit = 7,
    // a text is too long
    TooLong = 8,
    // a sum is not finite
    Overflow = 9,
    // there is no place left
    Full = 10,
    // there is no triple
    NoTriple = 11,
    // a buffer is too short
    Short = 13,
}

// A refusal: why, and at which place.
#[derive(Clone, Copy, Debug, PartialEq, Eq)]
pub struct Refusal {
    pub reason: Reason,
    pub place: u64,
}

impl Reason {
    // 01's number.
    pub fn number(self) -> u64
        ensures { result ≡ number self }
    {
        self as u64
    }

    // The refusal at a place.
    pub fn at(self, place: u64) -> Refusal
        ensures { result ≡ refusal_at self place }
    {
        Refusal {
            reason: self,
            place,
        }
    }

    // This reason, unless a test is passed.
    pub fn unless(self, passed: bool) -> Result<(), Reason>
        ensures { result ≡ tested passed self }
    {
        if passed { Ok(()) } else { Err(self) }
    }
}

// Outside lists, sheets and texts the place is 0.
impl From<Reason> for Refusal {
    ghost from_gives = { λ reason r. r ≡ refusal reason };

    fn from(reason: Reason) -> Refusal {
        reason.at(0)
    }
}

// Its number and its place.
impl fmt::Display for Refusal {
    ghost output = { λ r. Some (refusal_text r) };

    fn fmt<W: fmt::Write>(&self, f: &mut fmt::Formatter<W>) -> fmt::Result {
        write!(f, "refused {} {}", self.reason.number(), self.place)
    }
}

impl Error for Refusal {}
