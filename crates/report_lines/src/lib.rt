// The lines of the report program, as octets.
#![tactic(auto)]

mod spelling;
mod texts;

pub use spelling::{closing, line};

#[derive(Clone, Copy, Debug, PartialEq, Eq)]
pub enum ReportLine {
    Corrected { block: u64, total: u64 },
    Inverted { block: u64, total: u64 },
    Refused { block: u64, number: u64 },
    Lost { block: u64, word: u64 },
    Short(u64),
    End(u64),
}

// The first `len` octets are the text. The type stays, since `line` promises zeros behind the text (specs/Text, Holds) and the memory is fixed: a string of
// std or of a library has no octets behind its length.
#[derive(Clone, Copy, Debug, PartialEq, Eq)]
pub struct Text {
    pub octets: [u8; 96],
    pub len: usize,
}
