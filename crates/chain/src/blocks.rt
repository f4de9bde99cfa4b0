// A block inverted or randomised if that is asked, where it stands or into another list.
ghost use Rattle.std.specs.Prelude.{◌≡◌, ◌≤◌, length, take};
ghost use Rattle.octets.specs.Bits.{inverted};
ghost use Rattle.chain.specs.Outcome.{randomised_if, inverted_if, opened_if};

use octets::copy_front;

// Of a block's length the randomiser refuses nothing.
pub(crate) fn randomise_if(asked: bool, block: &mut [u8])
    requires { length block.old ≤ 2040 }
    ensures { block.new ≡ randomised_if asked block.old }
{
    if asked {
        let _ = randomiser::randomise(block);
    }
}

fn invert(block: &mut [u8])
    ensures { block.new ≡ inverted block.old }
{
    for octet in block.iter_mut() {
        *octet = !*octet;
    }
}

fn invert_if(asked: bool, block: &mut [u8])
    ensures { block.new ≡ inverted_if asked block.old }
{
    if asked {
        invert(block);
    }
}

// A received block opened where it stands: the inversion was the last to be done to it, and so is undone first.
fn open_in_place(complement: bool, randomised: bool, block: &mut [u8])
    requires { length block.old ≤ 2040 }
    ensures { block.new ≡ opened_if complement randomised block.old }
{
    invert_if(complement, block);
    randomise_if(randomised, block);
}

// A received block opened into the front of a list.
pub(crate) fn open_block(complement: bool, randomised: bool, block: &[u8], opened: &mut [u8])
    requires { (length block.now ≤ 2040) × (length block.now ≤ length opened.old) }
    ensures { (length opened.new ≡ length opened.old) × (take (length block.now) opened.new ≡ opened_if complement randomised block.now) }
{
    let n = block.len();
    copy_front(block, opened);
    open_in_place(complement, randomised, &mut opened[..n]);
}
