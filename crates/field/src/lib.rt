// The field of 256 elements, and the two ways to write a symbol.
#![tactic(auto)]

mod arithmetic;
mod representations;

pub use arithmetic::{inverse, mul};
pub use representations::{to_conventional, to_line};
