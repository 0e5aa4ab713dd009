// The narrowing of one sum by the machine's floats: a few sums of `f32` or `f64` settle most cases, and where they do not the exact way of the crate `arith` answers. Asks for the default floating-point environment: rounding to nearest, subnormals kept, exceptions masked. Rests on the contracts of `arith` and on the kit's account of `+`, `<=` and `<`.
#![tactic(auto)]

mod end;
mod float;
mod grid;
mod guess;
mod half_ulp;
pub mod narrow;
mod shortcut;
