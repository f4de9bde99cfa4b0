// The coder between its checks and its answer: the state taken up, the octets in by groups, by pairs or one by one, the state handed back.
ghost use Rattle.std.specs.Prelude.{◌≡◌, ◌+◌, ◌-◌, ◌*◌, ◌/◌, ◌≤◌, ◌<◌, length};
ghost use Rattle.refusals.specs.Order.{FirstOf};
ghost use Rattle.refusals.specs.Calls.{convolve_order};
ghost use Rattle.convolution.specs.Coder.{bits_of};
ghost use Rattle.convolution.specs.Working.{stream, Sound, Opened, Handed, Run, Accepted};

use crate::pairs::{behind_held_in, pairs_in};
use crate::patterns::Pattern;
use crate::writing::{last_octet, top_bits};
use crate::{Flow, Group, Progress, State};

// No `From`, here and back: each asks something of what it takes.
fn opened(state: &State) -> Flow
    requires { state.now.holds < 8 }
    ensures { Opened state.now result }
{
    let holds = usize::from(state.holds);
    Flow {
        register: u32::from(state.register),
        place: usize::from(state.place),
        held: top_bits(state.held, holds),
        holds,
    }
}

fn handed(flow: Flow) -> State
    requires { (flow.register < 64) × (flow.place < 8) × (flow.held < 128) × (flow.holds < 8) }
    ensures { Handed flow result }
{
    State {
        register: flow.register as u8,
        place: flow.place as u8,
        holds: flow.holds as u8,
        held: last_octet(flow.held, flow.holds),
    }
}

// A turn reads one octet or a whole group, and writes what octets are whole: neither place goes up by one, so there is no slice to go over.
fn groups_in(pattern: &Pattern, octets: &[u8], symbols: &mut [u8], start: Flow) -> Flow
    requires { Sound pattern.now.rate start × (length (stream pattern.now.rate start (bits_of octets.now)) / 8 ≤ length symbols.old) × (pattern.now.rate ≡ 1 → ⊥) }
    ensures { Run pattern.now.rate start (bits_of octets.now) result symbols.new }
{
    let group = Group::of(pattern.rate);
    let mut at = Progress {
        flow: start,
        read: 0,
        written: 0,
    };
    while at.read < octets.len() {
        at = pattern.turn(&group, octets, symbols, at);
    }
    at.flow
}

// Three ways, told apart once in a call by what the call was given: a closure or a type parameter would have to be chosen in the same place.
fn all_in(pattern: &Pattern, octets: &[u8], symbols: &mut [u8], start: Flow) -> Flow
    requires { Sound pattern.now.rate start × (length (stream pattern.now.rate start (bits_of octets.now)) / 8 ≤ length symbols.old) }
    ensures { Run pattern.now.rate start (bits_of octets.now) result symbols.new }
{
    if pattern.rate != 1 {
        return groups_in(pattern, octets, symbols, start);
    }
    if start.holds == 0 {
        return pairs_in(octets, symbols, start);
    }
    behind_held_in(octets, symbols, start)
}

// The symbols that came in, of those written and those held before and after.
fn own_symbols(written: usize, before: usize, after: usize) -> u32
    requires { (written ≤ 4096) × (after < 8) × (before ≤ 8 * written + after) }
    ensures { result ≡ 8 * written + after - before }
{
    (8 * written + after - before) as u32
}

pub(crate) fn run_on(rate: u32, state: &mut State, octets: &[u8], symbols: &mut [u8]) -> u32
    requires { FirstOf (convolve_order rate state.old.register state.old.place state.old.holds (length octets.now) (length symbols.old)) 0 }
    ensures { Accepted rate state.old octets.now result state.new symbols.new }
{
    let start = opened(state);
    let end = all_in(&Pattern::of(rate), octets, symbols, start);
    *state = handed(end);
    own_symbols(symbols.len(), start.holds, end.holds)
}
