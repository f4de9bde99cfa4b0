// What a call answers, as its line has it. Where it refuses, its counts are zeros.
use chain::{Reception, Stage};
use convolution::State;
use frame_portions::Progress;
use pages::Numbers;
use refusals::{Parameter, Refusal};
use std::fmt;

#[derive(Clone, Copy)]
pub(crate) struct Received(pub(crate) Result<Reception, Stage>);

fn name(stage: Stage) -> &'static str {
    match stage {
        Stage::Parameters(_) => "parameters",
        Stage::Marker(_) => "marker",
        Stage::Word(_) => "word",
    }
}

impl fmt::Display for Received {
    fn fmt<W: fmt::Write>(&self, f: &mut fmt::Formatter<W>) -> fmt::Result {
        match self.0 {
            Ok(reception) => write!(
                f,
                " delivered 0 0 {} {}{}",
                u8::from(reception.inverted),
                reception.total,
                Numbers(&reception.counts)
            ),
            Err(stage) => write!(
                f,
                " {} {} {} 0 0{}",
                name(stage),
                stage.number(),
                stage.value(),
                Numbers(&[0; 8])
            ),
        }
    }
}

// The place, flag and rows of a frame in portions.
#[derive(Clone, Copy)]
pub(crate) struct Underway<'a>(pub(crate) &'a Progress);

impl<'a> fmt::Display for Underway<'a> {
    fn fmt<W: fmt::Write>(&self, f: &mut fmt::Formatter<W>) -> fmt::Result {
        let state = self.0;
        let rows = pages::Buffer(state.rows.as_flattened());
        write!(f, " {} {}{rows}", state.place, u8::from(state.closed))
    }
}

// A number of symbols.
#[derive(Clone, Copy)]
pub(crate) struct Convolved(pub(crate) Result<u32, Parameter>);

impl fmt::Display for Convolved {
    fn fmt<W: fmt::Write>(&self, f: &mut fmt::Formatter<W>) -> fmt::Result {
        match self.0 {
            Ok(count) => write!(f, " 0 {count}"),
            Err(p) => write!(f, " {}", p.number()),
        }
    }
}

#[derive(Clone, Copy)]
pub(crate) struct Coder(pub(crate) State);

impl fmt::Display for Coder {
    fn fmt<W: fmt::Write>(&self, f: &mut fmt::Formatter<W>) -> fmt::Result {
        let state = self.0;
        let register = state.register;
        let place = state.place;
        write!(f, " {register} {place} {} {}", state.holds, state.held)
    }
}
