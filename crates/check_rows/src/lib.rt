// Rows of 32 check octets, and what an octet fed back adds to them: by eight rows, one for each of its bits, or by a table of all 256 sums.
#![tactic(auto)]

mod step;
mod table;

pub use step::{FeedbackRows, stepped};
pub use table::table_of;
