// The checks of the search for the likeliest data: the coder's register, then the lengths.
ghost use Rattle.refusals.specs.Order.{FirstOf};
ghost use Rattle.refusals.specs.Numbers.{verdict_number};
ghost use Rattle.refusals.specs.Calls.{likeliest_order};

use crate::Parameter;

// Each octet of data has two octets of symbols, so an odd number of these are the symbols of no data.
pub fn likeliest_parameters(register: u32, symbols: usize, data: usize) -> Result<(), Parameter>
    ensures { FirstOf (likeliest_order register symbols «data») (verdict_number result) }
{
    if register > 63 {
        return Err(Parameter::Rate);
    }
    if symbols % 2 == 1 || symbols > 512 {
        return Err(Parameter::Input);
    }
    if data != symbols / 2 {
        return Err(Parameter::Output);
    }
    Ok(())
}
