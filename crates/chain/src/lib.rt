// The chains: a frame made into a marked block, and a marked block made into its frame again.
#![tactic(auto)]

mod blocks;
mod receiver;
mod refusing;
mod transmitter;

pub use receiver::receive;
use refusals::{MarkerRefusal, Parameter, WordRefusal};
pub use transmitter::transmit;

// The stage of receive that refused, with its own refusal.
#[derive(Clone, Copy, Debug, PartialEq, Eq)]
pub enum Stage {
    Parameters(Parameter),
    Marker(MarkerRefusal),
    Word(WordRefusal),
}

// Decode's report of a delivered block, and whether the block was inverted.
#[derive(Clone, Copy, Debug, PartialEq, Eq)]
pub struct Reception {
    pub total: u32,
    pub counts: [u8; 8],
    pub inverted: bool,
}
