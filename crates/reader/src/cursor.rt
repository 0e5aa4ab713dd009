// The cursor: a position in a text with what the reader keeps, and the record that stands there.
ghost use Rattle.std.specs.Prelude.{◌≡◌, drop};
ghost use Rattle.reader.specs.Bytes.{PartOf};
ghost use Rattle.reader.specs.Steps.{start, head_step, cell_step, record_step, counted, line_after, step_at, next_of, past, advance_of, cursor_after, record_at, record_start};
ghost use Rattle.reader.specs.Replies.{step_told, reply_next, Tells};

use crate::bytes::{find, rest};
use crate::entry::Entry;
use crate::line::parse;
use arith::interval::Interval;
use arith::refusal::{Reason, Refusal};
use sheet::fault::{cell_fault, head_fault, record_fault};
use sheet::kept::Record;

// Where the next record stands and in which line, the width that the head gave, and the counts of cells and records so far.
#[derive(Clone, Copy)]
pub struct Cursor {
    pub at: usize,
    pub line: u64,
    pub width: u64,
    pub cell_count: u64,
    pub record_count: u64,
}

// A record of the text, with the cursor after it.
#[derive(Clone, Copy)]
pub struct Read {
    pub entry: Entry,
    pub next: Cursor,
}

// What stands at a cursor: a record, none at the end of the text, or a refusal.
pub type Step = Result<Option<Read>, Refusal>;

// A step, and the cursor after it.
#[derive(Clone, Copy)]
pub struct Moved {
    pub cursor: Cursor,
    pub step: Step,
}

impl Cursor {
    // The cursor at the start of a text.
    pub fn new() -> Self
        ensures { result ≡ start }
    {
        Cursor {
            at: 0,
            line: 1,
            width: 0,
            cell_count: 0,
            record_count: 0,
        }
    }
}

// The line after a line. The greatest number that a cursor can keep is stayed at; no text has so many lines.
#[tactic(auto, unfolding(crate::specs::Steps::line_after))]
fn line_after(line: u64) -> u64
    ensures { result ≡ line_after line }
{
    line.saturating_add(1)
}

// A head, in the order of opening: refusals 1, 7. Past its line stands the cursor c.
#[tactic(auto, unfolding(crate::specs::Steps::head_step))]
fn head_step(width: u64, limit: u64, c: Cursor) -> Result<Cursor, Reason>
    ensures { result ≡ head_step width limit c }
{
    head_fault(width, limit)?;
    Ok(Cursor {
        width,
        cell_count: 0,
        record_count: 0,
        ..c
    })
}

// A cell, in the order of adding: refusals 2, 3, 10. Past its line stands the cursor c. Beside `record_step`, with another fault, count and bound.
#[tactic(auto, unfolding(crate::specs::Steps::cell_step))]
fn cell_step(cell: Interval, c: Cursor) -> Result<Cursor, Reason>
    ensures { result ≡ cell_step cell c }
{
    cell_fault(c.width, cell)?;
    Reason::Full.unless(c.cell_count < 64)?;
    Ok(Cursor {
        cell_count: c.cell_count + 1,
        ..c
    })
}

// A sum, diff or neg, in the order of adding: refusals 5, 10. Past its line stands the cursor c.
#[tactic(auto, unfolding(crate::specs::Steps::record_step))]
fn record_step(record: Record, c: Cursor) -> Result<Cursor, Reason>
    ensures { result ≡ record_step «record» c }
{
    record_fault(c.cell_count, record)?;
    Reason::Full.unless(c.record_count < 128)?;
    Ok(Cursor {
        record_count: c.record_count + 1,
        ..c
    })
}

// The cursor after an entry, or the reason of its refusal. Past its line stands the cursor c, with the record not yet counted.
#[tactic(auto, unfolding(crate::specs::Steps::counted))]
fn counted(entry: Entry, c: Cursor) -> Result<Cursor, Reason>
    ensures { result ≡ counted entry c }
{
    match entry {
        Entry::Head { width, limit } => head_step(width, limit, c),
        Entry::Cell(cell) => cell_step(cell, c),
        Entry::Record(record) => record_step(record, c),
    }
}

// What stands at the cursor in a text of any length.
#[tactic(auto, unfolding(crate::specs::Steps::step_at, crate::specs::Steps::admitted, crate::specs::Bytes::before))]
fn step_at(text: &[u8], c: Cursor) -> Step
    ensures { result ≡ step_at (drop c.at text.now) c }
{
    let ahead = rest(text, c.at);
    let Some(n) = find(ahead, b'\n') else {
        if ahead.is_empty() && c.at != 0 {
            return Ok(None);
        }
        return Err(Reason::Malformed.at(c.line));
    };
    let entry = parse(c.at, c.width, &ahead[..n]).ok_or(Reason::Malformed.at(c.line))?;
    let past = Cursor {
        at: c.at + n + 1,
        line: line_after(c.line),
        ..c
    };
    let next = counted(entry, past).map_err(|reason| reason.at(c.line))?;
    Ok(Some(Read { entry, next }))
}

// The record at the cursor with the cursor after it, the end of the text, or the refusal due there.
#[tactic(auto, unfolding(crate::specs::Steps::next_of, crate::specs::Replies::reply_next), using(crate::proofs::Replies::at_told))]
pub fn next(text: &[u8], c: Cursor) -> Step
    ensures value { result ≡ next_of text.now c }
    ensures reply { step_told result ≡ reply_next text.now c }
{
    Reason::TooLong.unless(text.len() <= 8192)?;
    step_at(text, c)
}

// The cursor after a step from c. A refused record and the end are stayed at.
fn past(step: Step, c: Cursor) -> Cursor
    ensures { result ≡ past step c }
{
    match step {
        Ok(Some(read)) => read.next,
        Ok(None) | Err(_) => c,
    }
}

// The step from a cursor, and the cursor after it.
#[tactic(auto, unfolding(crate::specs::Steps::advance_of, crate::specs::Steps::after_of), using(crate::proofs::Replies::step_tells))]
pub fn advance(text: &[u8], c: Cursor) -> Moved
    ensures { (result ≡ advance_of text.now c) × Tells text.now c result.step result.cursor }
{
    let step = next(text, c);
    Moved {
        cursor: past(step, c),
        step,
    }
}

// The cursor after the first n records of a text.
#[tactic(auto, unfolding(crate::specs::Steps::advance_of, crate::specs::Steps::cursor_after))]
pub fn skip(text: &[u8], n: u16) -> Cursor
    ensures { result ≡ cursor_after n text.now }
{
    let mut cursor = Cursor::new();
    for _ in 0..n {
        cursor = advance(text, cursor).cursor;
    }
    cursor
}

// The part of the text that the record at the cursor occupies, without its line feed. It is empty for refusal 8 and for empty text.
#[tactic(auto, unfolding(crate::specs::Steps::record_at, crate::specs::Steps::record_start, crate::specs::Bytes::before))]
pub fn record_at(text: &[u8], c: Cursor) -> &[u8]
    ensures { PartOf text.entry (record_start text.now c) (record_at text.now c) result }
{
    if 8192 < text.len() {
        return &text[..0];
    }
    let line = rest(text, c.at);
    let end = find(line, b'\n').unwrap_or(line.len());
    &line[..end]
}
