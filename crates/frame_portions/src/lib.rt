// Encoding of a frame that comes in portions.
#![tactic(auto)]

mod piecewise;

// How far a frame that is given in portions has come: the octets taken, whether it is closed, and a row of check octets for each of eight words.
#[derive(Clone, Copy, Debug, PartialEq, Eq)]
pub struct Progress {
    pub place: u32,
    pub closed: bool,
    pub rows: [[u8; 32]; 8],
}
