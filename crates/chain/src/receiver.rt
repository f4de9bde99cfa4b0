// Reception: marker, invert after a complemented one, randomise again if it was asked, decode.
ghost use Rattle.std.specs.Prelude.{◌≡◌, ◌≤◌, length};
ghost use Rattle.chain.specs.Outcome.{opened_if, said_inverted, received_of, received_counts, received_total, received_inverted, AsDecode, ReceiveOutcome};

use crate::blocks::open_block;
use crate::{Reception, Stage};
use marker::Form;
use reed_solomon::Decoding;
use refusals::Code;

// The block is opened in a copy: the marked block is lent to be read only.
fn decode_part(
    code: Code,
    s: u32,
    inverted: bool,
    randomised: bool,
    block: &[u8],
    frame: &mut [u8],
) -> Result<Reception, Stage>
    requires { length block.now ≤ 2040 }
    ensures { (AsDecode code.strength code.depth code.fill s (opened_if inverted randomised block.now) frame.old (received_of result) (received_counts result) (received_total result) frame.new) × (received_inverted result ≡ said_inverted (received_of result) inverted) }
{
    let n = block.len();
    let mut opened = [0u8; 2040];
    open_block(inverted, randomised, block, &mut opened);
    let Decoding { total, counts } = reed_solomon::decode(code, s, &opened[..n], frame)?;
    Ok(Reception {
        total,
        counts,
        inverted,
    })
}

pub fn receive(
    code: Code,
    s: u32,
    tolerance: u32,
    randomised: bool,
    marked: &[u8],
    frame: &mut [u8],
) -> Result<Reception, Stage>
    ensures { ReceiveOutcome code.strength code.depth code.fill s tolerance randomised marked.now frame.old (received_of result) (received_counts result) (received_total result) (received_inverted result) frame.new }
{
    refusals::receive_parameters(code, s, tolerance, marked.len(), frame.len())?;
    let near = marker::test(tolerance, &marked[..4])?;
    let inverted = near.form == Form::Complement;
    decode_part(code, s, inverted, randomised, &marked[4..], frame)
}
