// The checks of a frame that comes in portions, in the orders of document 02, (ii).
ghost use Rattle.std.specs.Prelude.{◌≡◌, true, ◌≢◌, ◌⊎◌, [], ◌∷◌, ◌<◌};
ghost use Rattle.refusals.specs.Order.{FirstOf, Tells};
ghost use Rattle.refusals.specs.Numbers.{verdict_number};
ghost use Rattle.refusals.specs.Calls.{output, portion_order, close_order};

use crate::{Code, Parameter};

// A portion is too much for a state that is closed, or that it would take past the frame.
fn too_much(closed: bool, end: usize, frame: usize) -> bool
    ensures { Tells result ((closed ≡ true) ⊎ (frame < end)) }
{
    closed || end > frame
}

// A close is out of place in a state that is closed, or not at the frame's end.
fn out_of_place(closed: bool, place: usize, frame: usize) -> bool
    ensures { Tells result ((closed ≡ true) ⊎ (place ≢ frame)) }
{
    closed || place != frame
}

// Checks 6 and 14, in which both calls end.
fn at_last(given: usize, required: usize, unfit: bool) -> Result<(), Parameter>
    ensures { FirstOf (output «given» «required» ∷ (14, (unfit ≡ true)) ∷ []) (verdict_number result) }
{
    if given != required {
        return Err(Parameter::Output);
    }
    if unfit {
        return Err(Parameter::Progress);
    }
    Ok(())
}

pub fn portion_parameters(
    code: Code,
    portion: usize,
    written: usize,
    place: u32,
    closed: bool,
) -> Result<(), Parameter>
    ensures { FirstOf (portion_order code.strength code.depth code.fill portion written place closed) (verdict_number result) }
{
    code.check()?;
    if portion > 300 {
        return Err(Parameter::Input);
    }
    let end = place as usize + portion;
    at_last(written, portion, too_much(closed, end, code.frame_length()))
}

pub fn close_parameters(
    code: Code,
    checks: usize,
    place: u32,
    closed: bool,
) -> Result<(), Parameter>
    ensures { FirstOf (close_order code.strength code.depth code.fill checks place closed) (verdict_number result) }
{
    code.check()?;
    let unfit = out_of_place(closed, place as usize, code.frame_length());
    at_last(checks, code.checks_length(), unfit)
}
