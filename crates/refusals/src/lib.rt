// The refusals of documents 01 and 02: their names and numbers, and the checks of parameters and lengths that the calls share.
#![tactic(auto)]

mod checks;
mod code;
mod coder;
mod likeliest;
mod numbers;
mod portions;
mod salvage;

pub use checks::{
    decode_parameters, encode_parameters, marker_parameters, randomise_parameters,
    receive_parameters, search_parameters, transmit_parameters,
};
pub use code::{Code, strength_legal};
pub use coder::{coder_close_parameters, convolve_parameters};
pub use likeliest::likeliest_parameters;
pub use numbers::{Refusal, verdict_number};
pub use portions::{close_parameters, portion_parameters};
pub use salvage::salvage_parameters;

// A parameter or a length that is not legal, or a frame in portions that a call would pass, finds unfinished, or finds closed.
#[derive(Clone, Copy, Debug, PartialEq, Eq)]
pub enum Parameter {
    Strength = 1,
    Depth = 2,
    Fill = 3,
    Allowance = 4,
    Input = 5,
    Output = 6,
    Rate = 7,
    Tolerance = 8,
    Start = 11,
    Progress = 14,
}

// What the marker test refuses by.
#[derive(Clone, Copy, Debug, PartialEq, Eq)]
pub enum MarkerRefusal {
    Parameters(Parameter),
    WrongBits(u32),
}

// What decode refuses by.
#[derive(Clone, Copy, Debug, PartialEq, Eq)]
pub enum WordRefusal {
    Parameters(Parameter),
    NoCodeword(u32),
}
