// Groups of octets at the punctured rates, and all of a group's symbols at once.
ghost use Rattle.std.specs.Prelude.{◌≡◌, ◌<◌};
ghost use Rattle.refusals.specs.Order.{OneOf};
ghost use Rattle.refusals.specs.Sizes.{rates};
ghost use Rattle.convolution.specs.GroupWorking.{moved_up, spread_by, symbols_by, Grouped};

use crate::Group;

const TWO_THIRDS: Group = Group {
    octets: 4,
    filled: 6,
    first: 0,
    second: 0xffffffff,
    begins: 0xaaaaaaaa,
    eights: 0xffff0000,
    fours: 0xff0000ff00,
    twos: 0xf00f00f00f0,
    ones: 0x30c30c30c30c,
};

const THREE_QUARTERS: Group = Group {
    octets: 6,
    filled: 8,
    first: 0x249249249249,
    second: 0xdb6db6db6db6,
    begins: 0x924924924924,
    eights: 0xffffff000000,
    fours: 0xfff00000fff000,
    twos: 0xfc00fc00fc00fc0,
    ones: 0x3838383838383838,
};

const FIVE_SIXTHS: Group = Group {
    octets: 5,
    filled: 6,
    first: 0x294a5294a5,
    second: 0xd6b5ad6b5a,
    begins: 0x8421084210,
    eights: 0,
    fours: 0xfffff00000,
    twos: 0xffc000ffc00,
    ones: 0x3e03e03e03e0,
};

const SEVEN_EIGHTHS: Group = Group {
    octets: 7,
    filled: 8,
    first: 0xa142850a14285,
    second: 0xf5ebd7af5ebd7a,
    begins: 0x81020408102040,
    eights: 0,
    fours: 0xfffffff0000000,
    twos: 0xfffc0000fffc000,
    ones: 0x3f803f803f803f80,
};

// The bits that the mask has go up by so many places.
fn moved(bits: u64, mask: u64, by: usize) -> u64
    requires { by < 64 }
    ensures { result ≡ moved_up mask by bits }
{
    let up = bits & mask;
    bits ^ up ^ (up << by)
}

impl Group {
    // Rate 1/2 goes without. With the groups in a table that is lent the punctured rates took up to 15 % longer: the compiler no longer knows each by itself.
    pub(crate) fn of(rate: u32) -> Group
        requires { OneOf rates rate × (rate ≡ 1 → ⊥) }
        ensures { Grouped rate result }
    {
        match rate {
            2 => TWO_THIRDS,
            3 => THREE_QUARTERS,
            4 => FIVE_SIXTHS,
            _ => SEVEN_EIGHTHS,
        }
    }

    fn spread_out(&self, bits: u64) -> u64
        ensures { result ≡ spread_by self.now bits }
    {
        let eights = moved(bits, self.eights, 8);
        let fours = moved(eights, self.fours, 4);
        let twos = moved(fours, self.twos, 2);
        moved(twos, self.ones, 1)
    }

    // The symbols of a group, of the sums of its bits.
    pub(crate) fn symbols(&self, first: u64, second: u64) -> u64
        ensures { result ≡ symbols_by self.now first second }
    {
        let last = (second & self.second) ^ (first & self.first);
        self.spread_out(last) ^ (self.spread_out(first & self.begins) << 1)
    }
}
