// The register that gives the sequence, octet by octet.
ghost use Rattle.std.specs.Prelude.{◌≡◌};
ghost use Rattle.randomiser.specs.Sequence.{eight_on};
ghost use Rattle.randomiser.specs.Outcome.{NextOutcome};

// The next eight bits of the sequence, first in the top bit.
#[derive(Clone, Copy, Debug, PartialEq, Eq)]
pub struct Register {
    pub bits: u8,
}

// Eight bits at once: what the old bits add to the new ones, then what each new bit adds to those after it.
fn step(bits: u8) -> u8
    ensures { result ≡ eight_on bits }
{
    let old = bits ^ (bits << 3) ^ (bits << 5) ^ (bits << 7);
    old ^ (old >> 1) ^ (old >> 2) ^ (old >> 4) ^ (old >> 5)
}

impl Register {
    // The register's octet, and the register eight bits on.
    pub fn next(&mut self) -> u8
        ensures { NextOutcome self.old.bits result self.new.bits }
    {
        let octet = self.bits;
        self.bits = step(octet);
        octet
    }
}

// The same on the number that a register holds, for a caller who has no struct to lend.
pub fn next_bits(bits: &mut u8) -> u8
    ensures { NextOutcome bits.old result bits.new }
{
    let mut register = Register { bits: *bits };
    let octet = register.next();
    *bits = register.bits;
    octet
}
