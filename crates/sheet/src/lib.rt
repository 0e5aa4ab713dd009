// Kept sheets of cells and records over them: opened, added to and accepted. Rests on the contracts of the crate `arith`.
#![tactic(auto)]

pub mod accepting;
pub mod adding;
pub mod fault;
mod item;
pub mod kept;
pub mod kind;
mod testing;
mod tidying;
