// What the programs that try the calls print: a line for each call, and the numbers that stand in for data.
#![tactic(auto)]

mod calls;
mod draws;
mod fitting;
mod pieces;

pub use calls::{decode, encode};
pub use draws::{drawn, fill, turn};
pub use fitting::Words;
pub use pieces::{Buffer, Coded, Decoded, Numbers, Octets};
