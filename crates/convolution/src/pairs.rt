// Rate 1/2: each octet gives two, in a loop without a choice in each turn, as its octets are too quick for one. Octets, symbols and a state come
// together in each call, and no struct has them: a struct that holds what is lent to be written would be lent itself in each turn.
ghost use Rattle.std.specs.Prelude.{◌≡◌, ◌+◌, ◌*◌, ◌/◌, ◌≤◌, ◌<◌, length};
ghost use Rattle.convolution.specs.Coder.{bits_of};
ghost use Rattle.convolution.specs.Working.{stream, Sound, Run};
ghost use Rattle.convolution.specs.GroupWorking.{PairPut};

use crate::Flow;
use crate::octet::half_in;
use crate::writing::{kept, write_ready};

// The two octets of an octet that comes after a register, the first at `at`.
fn put_pair(symbols: &mut [u8], at: usize, register: u32, octet: u8)
    requires { (register < 64) × (at + 2 ≤ length symbols.old) }
    ensures { PairPut symbols.old at register octet symbols.new }
{
    let alone = Flow {
        register,
        place: 0,
        held: 0,
        holds: 0,
    };
    let full = half_in(alone, octet);
    write_ready(symbols, at, full.held, full.holds);
}

// With nothing held. The register before an octet is the last six bits of the octet before it, which is read anew: no turn waits for the turn before
// it, so that the compiler makes many of them at once. With the register carried, in a loop over the octets, rate 1/2 takes 2.5 times as long.
pub(crate) fn pairs_in(octets: &[u8], symbols: &mut [u8], start: Flow) -> Flow
    requires { Sound 1 start × (start.holds ≡ 0) × (2 * length octets.now ≤ length symbols.old) }
    ensures { Run 1 start (bits_of octets.now) result symbols.new }
{
    let n = octets.len();
    if n == 0 {
        return start;
    }
    put_pair(symbols, 0, start.register, octets[0]);
    for i in 1..n {
        let register = u32::from(octets[i - 1] % 64);
        put_pair(symbols, 2 * i, register, octets[i]);
    }
    let register = u32::from(octets[n - 1] % 64);
    Flow { register, ..start }
}

// With symbols held, which go out first.
pub(crate) fn behind_held_in(octets: &[u8], symbols: &mut [u8], start: Flow) -> Flow
    requires { Sound 1 start × (length (stream 1 start (bits_of octets.now)) / 8 ≤ length symbols.old) }
    ensures { Run 1 start (bits_of octets.now) result symbols.new }
{
    let mut flow = start;
    let mut written = 0;
    for &octet in octets {
        let full = half_in(flow, octet);
        write_ready(symbols, written, full.held, full.holds);
        written += full.holds / 8;
        flow = kept(full);
    }
    flow
}
