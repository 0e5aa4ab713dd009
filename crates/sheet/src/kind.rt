// The kinds of record, and their numbers.
ghost use Rattle.sheet.specs.Kinds.{Numbers};

// What a record says of its cells.
#[derive(Clone, Copy, PartialEq, Eq)]
pub enum Kind {
    Sum,
    Diff,
    Neg,
}

// The error of a number that is no kind's.
#[derive(Clone, Copy, PartialEq, Eq)]
pub struct UnknownKind;

impl TryFrom<u64> for Kind {
    type Error = UnknownKind;

    ghost try_from_gives = { Numbers };

    fn try_from(number: u64) -> Result<Self, UnknownKind> {
        match number {
            0 => Ok(Kind::Sum),
            1 => Ok(Kind::Diff),
            2 => Ok(Kind::Neg),
            _ => Err(UnknownKind),
        }
    }
}
