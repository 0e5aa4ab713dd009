// Writes 01's listing into lent buffers: of a kept sheet, narrowed, and of a sheet text. Rests on the crates `arith`, `sheet`, `propagation` and `reader`.
#![tactic(auto)]

mod digits;
pub mod from_text;
mod lines;
mod outcome;
pub mod writer;
