// Blocks, randomised in place.
ghost use Rattle.std.specs.Prelude.{◌≡◌};
ghost use Rattle.randomiser.specs.Sequence.{randomised};
ghost use Rattle.randomiser.specs.Outcome.{RandomiseOutcome};

use crate::Register;
use refusals::Parameter;

fn add_sequence(block: &mut [u8])
    ensures { block.new ≡ randomised block.old }
{
    let mut register = Register { bits: 0xFF };
    for octet in block.iter_mut() {
        *octet ^= register.next();
    }
}

pub fn randomise(block: &mut [u8]) -> Result<(), Parameter>
    ensures { RandomiseOutcome block.old result block.new }
{
    refusals::randomise_parameters(block.len())?;
    add_sequence(block);
    Ok(())
}
