// The table of branch costs.
ghost use Rattle.std.specs.Prelude.{◌<◌};
ghost use Rattle.viterbi.specs.Working.{Serves};

// In how many places the symbols of a bit 0 differ from a pair of received ones: at 32 times the pair plus k, from the register whose place is 2 k.
static COSTS: [u8; 128] = [
    1, 0, 1, 0, 1, 2, 1, 2, 1, 2, 1, 2, 1, 0, 1, 0, 2, 1, 2, 1, 0, 1, 0, 1, 0, 1, 0, 1, 2, 1, 2, 1,
    0, 1, 0, 1, 2, 1, 2, 1, 2, 1, 2, 1, 0, 1, 0, 1, 1, 2, 1, 2, 1, 0, 1, 0, 1, 0, 1, 0, 1, 2, 1, 2,
    2, 1, 2, 1, 0, 1, 0, 1, 0, 1, 0, 1, 2, 1, 2, 1, 1, 0, 1, 0, 1, 2, 1, 2, 1, 2, 1, 2, 1, 0, 1, 0,
    1, 2, 1, 2, 1, 0, 1, 0, 1, 0, 1, 0, 1, 2, 1, 2, 0, 1, 0, 1, 2, 1, 2, 1, 2, 1, 2, 1, 0, 1, 0, 1,
];

pub(crate) fn cost_at(pair: usize, k: usize) -> u8
    requires { (pair < 4) × (k < 32) }
    ensures { Serves pair k result }
{
    COSTS[32 * pair + k]
}
