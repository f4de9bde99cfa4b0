// Transmission: frame, encode, randomise if asked, marker in front.
ghost use Rattle.chain.specs.Outcome.{TransmitOutcome};

use crate::blocks::randomise_if;
use octets::copy_front;
use refusals::{Code, Parameter};

static MARKER: [u8; 4] = [0x1A, 0xCF, 0xFC, 0x1D];

// The marker stands before the part that is lent to be coded and to be randomised, and so is never randomised itself.
pub fn transmit(
    code: Code,
    randomised: bool,
    frame: &[u8],
    marked: &mut [u8],
) -> Result<(), Parameter>
    ensures { TransmitOutcome code.strength code.depth code.fill randomised frame.now marked.old result marked.new }
{
    refusals::transmit_parameters(code, frame.len(), marked.len())?;
    // Never refused: encode's checks are among those that have passed.
    encoding::encode(code, frame, &mut marked[4..])?;
    copy_front(&MARKER, marked);
    randomise_if(randomised, &mut marked[4..]);
    Ok(())
}
