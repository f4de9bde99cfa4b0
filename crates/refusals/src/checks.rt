// Each call's checks of parameters and lengths, in the order of document 01; the coder's are in `coder`.
ghost use Rattle.std.specs.Prelude.{◌≡◌, [], ◌∷◌, ◌++◌, ◌+◌, ◌*◌, ◌≤◌};
ghost use Rattle.refusals.specs.Order.{FirstOf};
ghost use Rattle.refusals.specs.Sizes.{frame_length, block_length};
ghost use Rattle.refusals.specs.Numbers.{verdict_number};
ghost use Rattle.refusals.specs.Calls.{input, output, encode_order, decode_parameters, randomise_order, marker_parameters, search_order, transmit_order, receive_parameters};
ghost use Rattle.refusals.specs.Working.{word_parameters, allowed_parameters};

use crate::{Code, Parameter};

// Checks 5 and 6 of a call that requires both lengths.
fn lengths(
    given_input: usize,
    required_input: usize,
    given_output: usize,
    required_output: usize,
) -> Result<(), Parameter>
    ensures { FirstOf (input given_input required_input ∷ output given_output required_output ∷ []) (verdict_number result) }
{
    if given_input != required_input {
        return Err(Parameter::Input);
    }
    if given_output != required_output {
        return Err(Parameter::Output);
    }
    Ok(())
}

// Checks 1, 2, 3, 5 and 6 of a call that takes a frame and gives a block with so many octets in front.
fn outgoing(code: Code, frame: usize, out: usize, front: usize) -> Result<(), Parameter>
    requires { front ≤ 4 }
    ensures { FirstOf (word_parameters code.strength code.depth code.fill ++ (input frame (frame_length code.strength code.depth code.fill) ∷ output out (block_length code.depth code.fill + front) ∷ [])) (verdict_number result) }
{
    code.check()?;
    lengths(frame, code.frame_length(), out, code.block_length() + front)
}

pub fn encode_parameters(code: Code, frame: usize, block: usize) -> Result<(), Parameter>
    ensures { FirstOf (encode_order code.strength code.depth code.fill frame block) (verdict_number result) }
{
    outgoing(code, frame, block, 0)
}

pub fn transmit_parameters(code: Code, frame: usize, marked: usize) -> Result<(), Parameter>
    ensures { FirstOf (transmit_order code.strength code.depth code.fill frame marked) (verdict_number result) }
{
    outgoing(code, frame, marked, 4)
}

// Checks 1 to 4, with which every call that takes a block begins.
fn allowed_parameters(code: Code, s: u32) -> Result<(), Parameter>
    ensures { FirstOf (allowed_parameters code.strength code.depth code.fill s) (verdict_number result) }
{
    code.check()?;
    if s > code.strength {
        return Err(Parameter::Allowance);
    }
    Ok(())
}

pub fn decode_parameters(code: Code, s: u32, block: usize, frame: usize) -> Result<(), Parameter>
    ensures { FirstOf (decode_parameters code.strength code.depth code.fill s block frame) (verdict_number result) }
{
    allowed_parameters(code, s)?;
    lengths(block, code.block_length(), frame, code.frame_length())
}

pub fn receive_parameters(
    code: Code,
    s: u32,
    tolerance: u32,
    marked: usize,
    frame: usize,
) -> Result<(), Parameter>
    ensures { FirstOf (receive_parameters code.strength code.depth code.fill s tolerance marked frame) (verdict_number result) }
{
    allowed_parameters(code, s)?;
    if tolerance > 3 {
        return Err(Parameter::Tolerance);
    }
    lengths(marked, code.block_length() + 4, frame, code.frame_length())
}

pub fn randomise_parameters(block: usize) -> Result<(), Parameter>
    ensures { FirstOf (randomise_order block) (verdict_number result) }
{
    if block > 2040 {
        return Err(Parameter::Input);
    }
    Ok(())
}

pub fn marker_parameters(tolerance: u32, octets: usize) -> Result<(), Parameter>
    ensures { FirstOf (marker_parameters tolerance octets) (verdict_number result) }
{
    if tolerance > 3 {
        return Err(Parameter::Tolerance);
    }
    if octets != 4 {
        return Err(Parameter::Input);
    }
    Ok(())
}

pub fn search_parameters(tolerance: u32, stream: usize, start: u64) -> Result<(), Parameter>
    ensures { FirstOf (search_order tolerance stream start) (verdict_number result) }
{
    if tolerance > 3 {
        return Err(Parameter::Tolerance);
    }
    if stream > 65536 {
        return Err(Parameter::Input);
    }
    if start > 8 * (stream as u64) {
        return Err(Parameter::Start);
    }
    Ok(())
}
