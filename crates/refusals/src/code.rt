// The three numbers with which every call on words begins: what they may be, and the lengths that they require.
ghost use Rattle.std.specs.Prelude.{◌≡◌, ◌+◌, ◌*◌, ◌≤◌};
ghost use Rattle.refusals.specs.Order.{FirstOf, OneOf, Tells};
ghost use Rattle.refusals.specs.Sizes.{strengths, depths, frame_length, block_length, checks_length};
ghost use Rattle.refusals.specs.Numbers.{verdict_number};
ghost use Rattle.refusals.specs.Working.{word_parameters};

use crate::Parameter;

// Strength E, depth I and fill Q: any numbers, until they are checked.
#[derive(Clone, Copy, Debug, PartialEq, Eq)]
pub struct Code {
    pub strength: u32,
    pub depth: u32,
    pub fill: u32,
}

pub fn strength_legal(e: u32) -> bool
    ensures { Tells result (OneOf strengths e) }
{
    matches!(e, 8 | 16)
}

fn depth_legal(depth: u32) -> bool
    ensures { Tells result (OneOf depths depth) }
{
    matches!(depth, 1 | 2 | 3 | 4 | 5 | 8)
}

// So many octets of each of the words.
fn interleaved(symbols: u32, depth: u32) -> usize
    requires { (symbols ≤ 255) × (depth ≤ 8) }
    ensures { (result ≡ symbols * depth) × (result ≤ 2040) }
{
    (symbols * depth) as usize
}

impl Code {
    // Checks 1, 2 and 3.
    pub(crate) fn check(self) -> Result<(), Parameter>
        ensures { FirstOf (word_parameters self.strength self.depth self.fill) (verdict_number result) }
    {
        if !strength_legal(self.strength) {
            return Err(Parameter::Strength);
        }
        if !depth_legal(self.depth) {
            return Err(Parameter::Depth);
        }
        if self.fill > 254 - 2 * self.strength {
            return Err(Parameter::Fill);
        }
        Ok(())
    }

    // Of legal numbers only. No type of its own says that they are: each of the three is called right behind `check`, in the function that called it.
    pub(crate) fn frame_length(self) -> usize
        requires { FirstOf (word_parameters self.strength self.depth self.fill) 0 }
        ensures { result ≡ frame_length self.strength self.depth self.fill }
    {
        interleaved(255 - 2 * self.strength - self.fill, self.depth)
    }

    pub(crate) fn block_length(self) -> usize
        requires { FirstOf (word_parameters self.strength self.depth self.fill) 0 }
        ensures { (result ≡ block_length self.depth self.fill) × (result ≤ 2040) }
    {
        interleaved(255 - self.fill, self.depth)
    }

    pub(crate) fn checks_length(self) -> usize
        requires { FirstOf (word_parameters self.strength self.depth self.fill) 0 }
        ensures { result ≡ checks_length self.strength self.depth }
    {
        interleaved(2 * self.strength, self.depth)
    }
}
