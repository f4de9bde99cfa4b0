// The checks of salvage: decode's before it decodes, then the list.
ghost use Rattle.refusals.specs.Order.{FirstOf};
ghost use Rattle.refusals.specs.Numbers.{verdict_number};
ghost use Rattle.refusals.specs.Calls.{salvage_order};

use crate::checks::decode_parameters;
use crate::{Code, Parameter};

// The list has room for every octet of the block, since every octet may change.
pub fn salvage_parameters(
    code: Code,
    s: u32,
    block: usize,
    frame: usize,
    list: usize,
) -> Result<(), Parameter>
    ensures { FirstOf (salvage_order code.strength code.depth code.fill s block frame list) (verdict_number result) }
{
    decode_parameters(code, s, block, frame)?;
    if list != 4 * code.block_length() {
        return Err(Parameter::Output);
    }
    Ok(())
}
