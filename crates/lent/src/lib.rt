// Lent lists: cells and records that the host holds, narrowed in place. Rests on the contracts of the crates `sheet` and `propagation`.
#![tactic(auto)]

pub mod lists;
