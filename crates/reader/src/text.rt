// The reader: a struct with the caller's text and a cursor in it, and thin functions over the cursor's.
ghost use Rattle.std.specs.Prelude.{◌≡◌};
ghost use Rattle.reader.specs.Bytes.{PartOf};
ghost use Rattle.reader.specs.Steps.{start, next_of, after_of, cursor_after, record_at, record_start};
ghost use Rattle.reader.specs.Replies.{step_told, reply_next, Tells};

use crate::cursor::{Cursor, Moved, Step, advance, record_at, skip};

// A text, and where its next record stands. 01 names this form.
#[derive(Clone, Copy)]
pub struct Reader<'a> {
    pub text: &'a [u8],
    pub cursor: Cursor,
}

// What a reader gives, and the reader after it: by value, as 01 names it.
#[derive(Clone, Copy)]
pub struct Given<'a> {
    pub reader: Reader<'a>,
    pub step: Step,
}

impl<'a> Reader<'a> {
    // A reader at the start of a text.
    pub fn new(text: &'a [u8]) -> Self
        ensures { (result.text ≡ text.entry) × (result.cursor ≡ start) }
    {
        Reader {
            text,
            cursor: Cursor::new(),
        }
    }

    // The record at the reader, the end of the text or the refusal due there, and the reader after it. It stays at a refused record and at the end.
    #[tactic(auto, unfolding(crate::specs::Steps::advance_of))]
    pub fn next(self) -> Given<'a>
        ensures { (result.reader.text ≡ self.entry.text) × ((result.reader.cursor ≡ after_of self.entry.text.now self.entry.cursor) × ((result.step ≡ next_of self.entry.text.now self.entry.cursor) × Tells self.entry.text.now self.entry.cursor result.step result.reader.cursor)) }
    {
        let Moved { cursor, step } = advance(self.text, self.cursor);
        Given {
            reader: Reader { cursor, ..self },
            step,
        }
    }

    // The part of the text that the record there occupies, refused or not, without its line feed. It is empty for refusal 8 and for empty text.
    pub fn record(self) -> &'a [u8]
        ensures { PartOf self.entry.text (record_start self.entry.text.now self.entry.cursor) (record_at self.entry.text.now self.entry.cursor) result }
    {
        record_at(self.text, self.cursor)
    }
}

// The record after the first n of a text. It is the refused one, or the end of the text, where either comes sooner.
pub fn nth(text: &[u8], n: u16) -> Step
    ensures { (result ≡ next_of text.now (cursor_after n text.now)) × (step_told result ≡ reply_next text.now (cursor_after n text.now)) }
{
    let cursor = skip(text, n);
    Reader { text, cursor }.next().step
}

// The part of the text that the record after the first n occupies. It is the refused one, or empty at the end, where either comes sooner.
pub fn part(text: &[u8], n: u16) -> &[u8]
    ensures { PartOf text.entry (record_start text.now (cursor_after n text.now)) (record_at text.now (cursor_after n text.now)) result }
{
    let cursor = skip(text, n);
    Reader { text, cursor }.record()
}
