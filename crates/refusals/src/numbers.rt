// The number of each refusal, and the value that it carries.
ghost use Rattle.std.specs.Prelude.{◌≡◌, ℕ};
ghost use Rattle.refusals.specs.Numbers.{parameter_number, verdict_number, marker_number, marker_value, word_number, word_value};
ghost use Rattle.refusals.specs.declared.MarkerRefusal.TheVariants as marker;
ghost use Rattle.refusals.specs.declared.WordRefusal.TheVariants as word;

use crate::{MarkerRefusal, Parameter, WordRefusal};

// What a call refuses by, as document 01 numbers it.
pub trait Refusal {
    ghost number_of: { Self → ℕ };

    ghost value_of: { Self → ℕ };

    fn number(self) -> u8
        ensures { result ≡ number_of self };

    fn value(self) -> u32
        ensures { result ≡ value_of self };
}

impl Refusal for Parameter {
    ghost number_of = { parameter_number };

    ghost value_of = { λ _. 0 };

    fn number(self) -> u8 {
        self as u8
    }

    fn value(self) -> u32 {
        0
    }
}

impl Refusal for MarkerRefusal {
    ghost number_of = { marker_number };

    ghost value_of = { marker_value };

    fn number(self) -> u8 {
        match self {
            MarkerRefusal::Parameters(p) => p.number(),
            MarkerRefusal::WrongBits(_) => 9,
        }
    }

    fn value(self) -> u32 {
        match self {
            MarkerRefusal::Parameters(p) => p.value(),
            MarkerRefusal::WrongBits(wrong) => wrong,
        }
    }
}

impl Refusal for WordRefusal {
    ghost number_of = { word_number };

    ghost value_of = { word_value };

    fn number(self) -> u8 {
        match self {
            WordRefusal::Parameters(p) => p.number(),
            WordRefusal::NoCodeword(_) => 10,
        }
    }

    fn value(self) -> u32 {
        match self {
            WordRefusal::Parameters(p) => p.value(),
            WordRefusal::NoCodeword(word) => word,
        }
    }
}

impl From<Parameter> for MarkerRefusal {
    ghost from_gives = { λ p r. r ≡ marker.Parameters p };

    fn from(p: Parameter) -> MarkerRefusal {
        MarkerRefusal::Parameters(p)
    }
}

impl From<Parameter> for WordRefusal {
    ghost from_gives = { λ p r. r ≡ word.Parameters p };

    fn from(p: Parameter) -> WordRefusal {
        WordRefusal::Parameters(p)
    }
}

// The number of a call's answer: 0 if it is accepted.
pub fn verdict_number(verdict: Result<(), Parameter>) -> u64
    ensures { result ≡ verdict_number verdict }
{
    match verdict {
        Ok(()) => 0,
        Err(p) => u64::from(p.number()),
    }
}
