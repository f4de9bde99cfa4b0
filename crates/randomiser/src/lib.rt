// The pseudo-randomiser: the sequence's register, and a block randomised in place.
#![tactic(auto)]

mod blocks;
mod sequence;

pub use blocks::randomise;
pub use sequence::{Register, next_bits};
