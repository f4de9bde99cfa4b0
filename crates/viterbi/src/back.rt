// Back over the received symbols, from the end to the start: the costs to go, and for each octet and register the octet of the cheapest way.
ghost use Rattle.std.specs.Prelude.{◌≡◌, ◌≤◌, ◌<◌, ◌+◌, ◌*◌, ◌/◌, ◌%◌, length};
ghost use Rattle.convolution.specs.Coder.{bits_of};
ghost use Rattle.viterbi.specs.Working.{Pair, Below, ToGo, OctetBack, Rows};

use crate::steps::{bit_back, lowered, spare};
use crate::{Column, Start};

// The pair of symbols of bit t.
fn pair_at(symbols: &[u8], t: usize) -> usize
    requires { t < 4 * length symbols.now }
    ensures { Pair (bits_of symbols.now) t result }
{
    let octet = symbols[t / 4];
    usize::from((octet >> (6 - 2 * (t % 4))) % 4)
}

// Eight bits back, from behind octet i to its start. The way is gathered from its last bit on, which has the lowest weight. The steps are written out
// so that the columns stay in registers from one to the next: a loop of eight took a fifth longer.
fn octet_back(symbols: &[u8], i: usize, behind: [u8; 64]) -> Column
    requires { (length symbols.now ≤ 512) × (2 * i + 2 ≤ length symbols.now) × Below 140 behind }
    ensures { Below 156 result.costs × OctetBack (bits_of symbols.now) i behind result }
{
    let t = 8 * i;
    let none = Column {
        costs: behind,
        ways: [0u8; 64],
    };
    let one = bit_back(none, pair_at(symbols, t + 7), 1);
    let two = bit_back(one, pair_at(symbols, t + 6), 2);
    let three = bit_back(two, pair_at(symbols, t + 5), 4);
    let four = bit_back(three, pair_at(symbols, t + 4), 8);
    let five = bit_back(four, pair_at(symbols, t + 3), 16);
    let six = bit_back(five, pair_at(symbols, t + 2), 32);
    let seven = bit_back(six, pair_at(symbols, t + 1), 64);
    bit_back(seven, pair_at(symbols, t), 128)
}

// The row of each octet gets its ways; the result is the costs to go at the start. What all costs have is moved to the base. By the octet's number:
// it is the row's, and that of its two octets of symbols.
pub(crate) fn rows_back(symbols: &[u8], rows: &mut [[u8; 64]; 256]) -> Start
    requires { (length symbols.now ≤ 512) × (length symbols.now % 2 ≡ 0) × (length rows.old ≡ 256) }
    ensures { ToGo (bits_of symbols.now) 0 result.base result.costs × Rows (bits_of symbols.now) 0 (length symbols.now / 2) rows.new }
{
    let mut costs = [0u8; 64];
    let mut base: u32 = 0;
    for i in (0..symbols.len() / 2).rev() {
        let front = octet_back(symbols, i, costs);
        rows[i] = front.ways;
        let taken = spare(front.costs[0]);
        costs = lowered(front.costs, taken);
        base += u32::from(taken);
    }
    Start { costs, base }
}
