// Arithmetic on binary floating-point patterns at both widths: the forward sum, intervals and the narrowing of one sum, also with one float in two places. All in integers, so that no answer depends on a floating-point environment. Rests on the crate `ladder`.
#![tactic(auto)]

mod absorb;
mod clamp;
mod corner;
mod extent;
pub mod format;
mod half;
pub mod interval;
pub mod narrow;
mod operand;
mod pattern;
mod range;
mod ranges;
pub mod refusal;
mod remainder;
pub mod repeated;
pub mod sum;
mod threshold;
pub mod width;
mod words;
