// The narrowing of one sum for C by the machine's floats, in the default floating-point environment. Rests on the contracts of the crates `machine` and `tazsmibor`.
#![tactic(auto)]

pub mod entry;
