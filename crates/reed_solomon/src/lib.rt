// Decoding of blocks of interleaved words, and salvage of those that cannot be decoded whole.
#![tactic(auto)]

mod decoder;
mod given;
mod listing;
mod recoding;
mod salvager;
mod symbols;

pub use decoder::decode;
pub use salvager::salvage;

// The number of differing symbols in each of eight words of a delivered block, and in all.
#[derive(Clone, Copy, Debug, PartialEq, Eq)]
pub struct Decoding {
    pub total: u32,
    pub counts: [u8; 8],
}

// Which of eight words are repaired (1) or not (0), the number of differing symbols in each, and how many entries the list has: what C's report has.
// There are eight words at most, so its lists are arrays of fixed length, and no heap is needed.
#[derive(Clone, Copy, Debug, PartialEq, Eq)]
pub struct SalvageReport {
    pub marks: [u8; 8],
    pub counts: [u8; 8],
    pub entries: u32,
}
