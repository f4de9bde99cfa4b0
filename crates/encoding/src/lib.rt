// The encoder, with interleaving and virtual fill.
#![tactic(auto)]

mod encoder;
mod steps;
mod table_16;
mod table_8;
mod turn;

pub use encoder::encode;
pub use steps::{rows_entered, write_checks};
