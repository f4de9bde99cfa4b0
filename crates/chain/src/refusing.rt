// A stage's refusal is the call's: its number, its value, and each stage's own as the call's.
ghost use Rattle.std.specs.Prelude.{◌≡◌};
ghost use Rattle.chain.specs.Outcome.{stage_number, stage_value};
ghost use Rattle.chain.specs.declared.Stage.TheVariants.{Parameters, Marker, Word};

use crate::Stage;
use refusals::{MarkerRefusal, Parameter, Refusal, WordRefusal};

impl Refusal for Stage {
    ghost number_of = { stage_number };

    ghost value_of = { stage_value };

    fn number(self) -> u8 {
        match self {
            Stage::Parameters(p) => p.number(),
            Stage::Marker(refusal) => refusal.number(),
            Stage::Word(refusal) => refusal.number(),
        }
    }

    fn value(self) -> u32 {
        match self {
            Stage::Parameters(p) => p.value(),
            Stage::Marker(refusal) => refusal.value(),
            Stage::Word(refusal) => refusal.value(),
        }
    }
}

impl From<Parameter> for Stage {
    ghost from_gives = { λ p stage. stage ≡ Parameters p };

    fn from(p: Parameter) -> Stage {
        Stage::Parameters(p)
    }
}

impl From<MarkerRefusal> for Stage {
    ghost from_gives = { λ refusal stage. stage ≡ Marker refusal };

    fn from(refusal: MarkerRefusal) -> Stage {
        Stage::Marker(refusal)
    }
}

impl From<WordRefusal> for Stage {
    ghost from_gives = { λ refusal stage. stage ≡ Word refusal };

    fn from(refusal: WordRefusal) -> Stage {
        Stage::Word(refusal)
    }
}
