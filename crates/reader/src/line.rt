// One line of a text, without its line feed: the entry of its fields, or none where it is malformed, unknown or misplaced.
ghost use Rattle.std.specs.Prelude.{◌≡◌};
ghost use Rattle.sheet.specs.Kinds.{number_of};
ghost use Rattle.reader.specs.Lines.{head_in, cell_in, triple_in, pair_in, record_in, line_of};

use crate::bytes::cut;
use crate::entry::Entry;
use crate::number::{numeral, pattern};
use arith::interval::Interval;
use sheet::kept::Record;
use sheet::kind::Kind;

// The fields after the word `sheet`: width and pass limit.
#[tactic(auto, unfolding(crate::specs::Lines::head_in, crate::specs::Lines::head_from))]
fn head_in(fields: &[u8]) -> Option<Entry>
    ensures { result ≡ head_in fields.now }
{
    let (w, m) = cut(fields, b'\t');
    Some(Entry::Head {
        width: numeral(w)?,
        limit: numeral(m)?,
    })
}

// The fields after the word `cell`: low and high.
#[tactic(auto, unfolding(crate::specs::Lines::cell_in, crate::specs::Lines::cell_from))]
fn cell_in(width: u64, fields: &[u8]) -> Option<Entry>
    ensures { result ≡ cell_in width fields.now }
{
    let (l, h) = cut(fields, b'\t');
    Some(Entry::Cell(Interval {
        low: pattern(width, l)?,
        high: pattern(width, h)?,
    }))
}

// The fields after the word `sum` or `diff`: the cell numbers of x, a, b.
#[tactic(auto, unfolding(crate::specs::Lines::triple_in, crate::specs::Lines::triple_from))]
fn triple_in(kind: Kind, fields: &[u8]) -> Option<Entry>
    ensures { result ≡ triple_in (number_of kind) fields.now }
{
    let (i, more) = cut(fields, b'\t');
    let (j, k) = cut(more, b'\t');
    Some(Entry::Record(Record {
        kind: kind as u64,
        x: numeral(i)?,
        a: numeral(j)?,
        b: numeral(k)?,
    }))
}

// The fields after the word `neg`: the cell numbers of x and y.
#[tactic(auto, unfolding(crate::specs::Lines::pair_in, crate::specs::Lines::pair_from))]
fn pair_in(fields: &[u8]) -> Option<Entry>
    ensures { result ≡ pair_in fields.now }
{
    let (i, j) = cut(fields, b'\t');
    Some(Entry::Record(Record {
        kind: Kind::Neg as u64,
        x: numeral(i)?,
        a: numeral(j)?,
        b: 0,
    }))
}

// A sum, diff or neg by its word.
#[tactic(auto, unfolding(crate::specs::Lines::record_in, crate::specs::Bytes::is_same))]
fn record_in(word: &[u8], fields: &[u8]) -> Option<Entry>
    ensures { result ≡ record_in word.now fields.now }
{
    if word == b"sum".as_slice() {
        return triple_in(Kind::Sum, fields);
    }
    if word == b"diff".as_slice() {
        return triple_in(Kind::Diff, fields);
    }
    if word == b"neg".as_slice() {
        return pair_in(fields);
    }
    None
}

// A line by its first field: a head at the start of the text, a cell or a record over cells anywhere else.
#[tactic(auto, unfolding(crate::specs::Lines::line_of, crate::specs::Bytes::is_same))]
pub(crate) fn parse(at: usize, width: u64, line: &[u8]) -> Option<Entry>
    ensures { result ≡ line_of at width line.now }
{
    let (word, fields) = cut(line, b'\t');
    match at {
        0 if word == b"sheet".as_slice() => head_in(fields),
        0 => None,
        _ if word == b"cell".as_slice() => cell_in(width, fields),
        _ => record_in(word, fields),
    }
}
