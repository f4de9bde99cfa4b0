// One bit back over a column, and its costs lowered. A column has the costs to go of the 64 registers, above a base, and the ways that have them, each
// at the place of the register turned round: so the two registers that a bit leads to are 32 places apart, the two that it comes from side by side,
// and the compiler makes vectors of all.
ghost use Rattle.std.specs.Prelude.{◌≡◌, cond, ◌≤◌, ◌<◌, ◌+◌, ltb};
ghost use Rattle.viterbi.specs.Working.{Earlier, Below, Under, Above, Lowered};

use crate::Column;
use crate::costs::cost_at;

// The way of the cheaper one; of two equally cheap ones that with the bit 0. What is chosen by is not what is given, so no `min`.
fn way_of_cheaper(zero: u8, one: u8, otherwise: u8, chosen: u8) -> u8
    ensures { result ≡ cond (ltb one zero) chosen otherwise }
{
    if one < zero { chosen } else { otherwise }
}

// The bit 1 has the weight in the way. A turn writes two places side by side, by an index: behind a mutable iterator of pairs a proof knows no elements.
pub(crate) fn bit_back(column: Column, pair: usize, weight: u8) -> Column
    requires { (pair < 4) × (weight ≤ 128) × Below 250 column.costs × Under weight column.ways }
    ensures { Earlier column pair weight result }
{
    let later = column.costs;
    let ahead = column.ways;
    let mut costs = [0u8; 64];
    let mut ways = [0u8; 64];
    for k in 0..32 {
        let zero = later[k];
        let one = later[k + 32];
        let zero_way = ahead[k];
        let one_way = ahead[k + 32] + weight;
        let x = cost_at(pair, k);
        let y = 2 - x;
        let even_zero = x + zero;
        let even_one = y + one;
        let odd_zero = y + zero;
        let odd_one = x + one;
        costs[2 * k] = even_zero.min(even_one);
        costs[2 * k + 1] = odd_zero.min(odd_one);
        ways[2 * k] = way_of_cheaper(even_zero, even_one, zero_way, one_way);
        ways[2 * k + 1] = way_of_cheaper(odd_zero, odd_one, zero_way, one_way);
    }
    Column { costs, ways }
}

pub(crate) fn lowered(mut costs: [u8; 64], taken: u8) -> [u8; 64]
    requires { Above taken costs }
    ensures { Lowered taken costs result }
{
    for cost in costs.iter_mut() {
        *cost -= taken;
    }
    costs
}

// What can be taken: no two costs differ by more than 12, so 64 of each once the first is 128.
pub(crate) fn spare(first: u8) -> u8
    ensures { (result ≤ 64) × (result ≡ cond (ltb 127 first) 64 0) }
{
    if 127 < first { 64 } else { 0 }
}
