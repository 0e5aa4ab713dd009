// The narrowing of one sum as other programs take it: plain numbers and bytes for C, and floats. In integers, so that no answer depends on a floating-point environment. Rests on the contracts of the crate `arith`.
#![tactic(auto)]

pub mod entry;
pub mod floats;
pub mod numbered;
