// Reads sheet text: a cursor that gives record after record and every refusal of text, the reader that holds a text with its cursor, and the reading of a whole sheet. Rests on the crates `arith` and `sheet`.
#![tactic(auto)]

mod bytes;
pub mod cursor;
pub mod entry;
mod line;
pub mod number;
pub mod read;
pub mod text;
