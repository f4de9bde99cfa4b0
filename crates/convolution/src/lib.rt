// The convolutional coder, which runs on from call to call until it is closed.
#![tactic(auto)]

mod groups;
mod octet;
mod pairs;
mod patterns;
mod picks;
mod running;
mod sums;
mod turns;
mod writing;

ghost use Rattle.convolution.specs.Outcome.{ConvolveOutcome, CloseOutcome};

use refusals::Parameter;
use running::run_on;
use writing::{last_octet, top_bits};

// What the coder carries from call to call: the last six bits, the newest lowest; the place in the puncture period; how many symbols are
// held, 0 to 7; and those symbols, top bit first: four numbers, as C has them. All zero at the start.
#[derive(Clone, Copy, Debug, PartialEq, Eq)]
pub struct State {
    pub register: u8,
    pub place: u8,
    pub holds: u8,
    pub held: u8,
}

// What it carries from bit to bit: the same, but the held symbols, up to 23 of them, with the newest lowest. Bits of `held` above
// the `holds` lowest mean nothing. That the place lies within the period (`Sound`) is of a state and a rate together, so it stays in the clauses: a
// struct of both would be copied at each octet.
#[derive(Clone, Copy)]
struct Flow {
    register: u32,
    place: usize,
    held: u32,
    holds: usize,
}

// And within an octet, from one bit that begins a period to the next: the bits not yet in, and those of them before the next such bit.
#[derive(Clone, Copy)]
struct Picking {
    held: u32,
    holds: usize,
    left: usize,
    ahead: usize,
}

// Where a call stands: its state, how many octets are read, and how many written.
#[derive(Clone, Copy)]
struct Progress {
    flow: Flow,
    read: usize,
    written: usize,
}

// A group of octets that is whole periods, and whole octets of symbols: how many octets it is, how many its symbols fill, and, a bit for each of its own,
// of which C1 is the last symbol sent, of which C2, and which begin a period, of which C1 is sent before C2. Then the bits that move up, by 8, 4, 2 and 1, to
// make room for those before.
#[derive(Clone, Copy)]
struct Group {
    octets: usize,
    filled: usize,
    first: u64,
    second: u64,
    begins: u64,
    eights: u64,
    fours: u64,
    twos: u64,
    ones: u64,
}

// The number of symbols is that of the octets lent, without those held before.
pub fn convolve(
    rate: u32,
    state: &mut State,
    octets: &[u8],
    symbols: &mut [u8],
) -> Result<u32, Parameter>
    ensures { ConvolveOutcome rate state.old octets.now symbols.old result state.new symbols.new }
{
    refusals::convolve_parameters(
        rate,
        state.register,
        state.place,
        state.holds,
        octets.len(),
        symbols.len(),
    )?;
    Ok(run_on(rate, state, octets, symbols))
}

pub fn close(rate: u32, state: State, symbols: &mut [u8]) -> Result<u32, Parameter>
    ensures { CloseOutcome rate state symbols.old result symbols.new }
{
    let held = state.holds;
    refusals::coder_close_parameters(rate, state.register, state.place, held, symbols.len())?;
    let holds = usize::from(held);
    if holds > 0 {
        symbols[0] = last_octet(top_bits(state.held, holds), holds);
    }
    Ok(u32::from(held))
}
