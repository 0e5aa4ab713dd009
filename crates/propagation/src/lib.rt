// The cells of a kept sheet narrowed together by its records, pass after pass, until nothing moves. Rests on the contracts of the crates `arith`, `machine` and `sheet`.
#![tactic(auto)]

pub mod narrowing;
pub mod passes;
mod step;
