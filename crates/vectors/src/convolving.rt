// The convolutional coder: from the start, from drawn states, at every limit of a state and one past it, and cut anywhere.
ghost use Rattle.std.specs.Prelude.{length, ◌+◌, ◌*◌, ◌≤◌};

use crate::calls;
use convolution::State;
use pages::{Buffer, fill, turn};
use std::io;

pub(crate) fn state_at(register: u8, place: u8, holds: u8, held: u8) -> State {
    State {
        register,
        place,
        holds,
        held,
    }
}

fn start() -> State {
    state_at(0, 0, 0, 0)
}

// A call on octets that are drawn, and the state after it. Each output here has a given length and holds 170 before.
fn drawn(
    rt: &impl Print,
    rate: u32,
    mut state: State,
    octets: usize,
    output: usize,
) -> io::Result<State> {
    let mut given = [0u8; 2045];
    let mut symbols = [170u8; 4097];
    fill(rate % 256 + u32::from(state.register), &mut given);
    if octets <= 2045 && output <= 4097 {
        calls::convolve(
            rt,
            rate,
            &mut state,
            &given[..octets],
            &mut symbols[..output],
        )?;
    }
    Ok(state)
}

fn closed(rt: &impl Print, rate: u32, state: State, output: usize) -> io::Result<()>
    requires { output ≤ 2 }
{
    let mut symbols = [170u8; 2];
    calls::convolve_close(rt, rate, state, &mut symbols[..output])
}

// With an output of the right length.
fn close_due(rt: &impl Print, rate: u32, state: State) -> io::Result<()> {
    closed(rt, rate, state, usize::from(state.holds != 0))
}

// Cases (G), (H) and (I) of document 01, each with its close.
fn worked(rt: &impl Print) -> io::Result<()> {
    let mut symbols = [170u8; 2];
    for (rate, octet, output) in [(1, 0x00u8, 2), (1, 0x80, 2), (3, 0x80, 1)] {
        let mut state = start();
        calls::convolve(rt, rate, &mut state, &[octet], &mut symbols[..output])?;
        close_due(rt, rate, state)?;
    }
    Ok(())
}

fn no_rate(rt: &impl Print, rate: u32) -> io::Result<()> {
    drawn(rt, rate, start(), 0, 0)?;
    close_due(rt, rate, start())
}

// C1 and C2 where a period begins, else one of them.
fn symbols_at(place: usize) -> usize
    ensures { (1 ≤ result) × (result ≤ 2) }
{
    1 + usize::from(place == 0)
}

fn next(place: usize, period: u8) -> usize
    requires { place ≤ 65535 }
    ensures { result ≤ place + 1 }
{
    if place + 1 == usize::from(period) {
        0
    } else {
        place + 1
    }
}

// The octets that the symbols held and those of so many octets fill.
fn filled(period: u8, state: State, octets: usize) -> usize
    requires { octets ≤ 5000 }
    ensures { (octets ≤ result) × (result ≤ 2 * octets + 31) }
{
    let mut symbols = usize::from(state.holds);
    let mut place = usize::from(state.place);
    for _ in 0..8 * octets {
        symbols += symbols_at(place);
        place = next(place, period);
    }
    symbols / 8
}

// Nothing, one octet and the longest input, each with outputs of the right length and of a wrong one; and one octet more.
fn lengths(rt: &impl Print, rate: u32, period: u8, state: State) -> io::Result<()> {
    let one = filled(period, state, 1);
    let most = filled(period, state, 2044);
    for (octets, output) in [
        (0, 0),
        (0, 1),
        (1, one),
        (1, one + 1),
        (1, one - 1),
        (2044, most),
        (2044, most - 1),
        (2044, most + 1),
        (2045, filled(period, state, 2045)),
    ] {
        drawn(rt, rate, state, octets, output)?;
    }
    Ok(())
}

// A state that no call handed out, with any bits below the symbols held.
fn drawn_state(seed: u32, place: u8, holds: u8) -> State {
    let first = turn(seed);
    let second = turn(first);
    state_at(pages::drawn(first) % 64, place, holds, pages::drawn(second))
}

// One octet, or two, from each place of the period with each number of symbols held.
fn from_each_place(rt: &impl Print, rate: u32, period: u8) -> io::Result<()>
    requires { period ≤ 7 }
{
    for place in 0..period {
        for holds in 0..8u8 {
            let seed = rate % 256 * 64 + 8 * u32::from(place) + u32::from(holds);
            let state = drawn_state(seed, place, holds);
            let octets = 1 + usize::from(holds % 2);
            drawn(rt, rate, state, octets, filled(period, state, octets))?;
        }
    }
    Ok(())
}

// A call of one octet, and a close of the same state.
fn octet_and_close(rt: &impl Print, rate: u32, state: State, output: usize) -> io::Result<()> {
    drawn(rt, rate, state, 1, output)?;
    closed(rt, rate, state, 1)
}

// With seven symbols held an octet fills two octets at any rate. Limit after limit, each by itself: a case names the number that it is about.
fn place_limits(rt: &impl Print, rate: u32, period: u8) -> io::Result<()>
    requires { 1 ≤ period }
{
    for place in [period - 1, period, 255] {
        octet_and_close(rt, rate, state_at(42, place, 7, 255), 2)?;
    }
    Ok(())
}

fn register_limits(rt: &impl Print, rate: u32) -> io::Result<()> {
    for register in [63, 64, 255] {
        octet_and_close(rt, rate, state_at(register, 0, 7, 0), 2)?;
    }
    Ok(())
}

fn held_limits(rt: &impl Print, rate: u32) -> io::Result<()> {
    for holds in [7, 8, 255] {
        octet_and_close(rt, rate, state_at(21, 0, holds, 127), 2)?;
    }
    Ok(())
}

// Two or three faults at once: the one that comes first in the order is the answer.
fn order(rt: &impl Print) -> io::Result<()> {
    for (rate, state, octets, output) in [
        (0, start(), 2045, 3),
        (6, state_at(64, 7, 8, 255), 2045, 3),
        (1, state_at(64, 0, 0, 255), 2045, 3),
        (3, state_at(0, 3, 0, 255), 2045, 3),
        (5, state_at(0, 0, 8, 255), 2045, 3),
        (4, state_at(63, 5, 7, 255), 1, 0),
        (4, state_at(63, 5, 7, 255), 2045, 2454),
        (2, start(), 2045, 3),
        (2, state_at(63, 1, 7, 255), 2045, 3),
    ] {
        drawn(rt, rate, state, octets, output)?;
    }
    for (rate, state, output) in [
        (0, start(), 1),
        (1, state_at(64, 0, 0, 255), 1),
        (3, state_at(0, 3, 1, 255), 0),
        (5, state_at(0, 0, 8, 255), 2),
    ] {
        closed(rt, rate, state, output)?;
    }
    Ok(())
}

// Dirt below the symbols held, with each number of them: accepted and refused, in a call and in a close.
fn dirt(rt: &impl Print) -> io::Result<()> {
    for holds in 0..8u8 {
        let state = state_at(45, 2, holds, 255);
        drawn(rt, 3, state, 0, 0)?;
        drawn(rt, 3, state, 1, filled(3, state, 1))?;
        drawn(rt, 3, state, 1, 3)?;
        close_due(rt, 3, state)?;
        closed(rt, 3, state, 2)?;
    }
    Ok(())
}

// The state that an octet leaves at one rate, used at each of them.
fn between_rates(rt: &impl Print) -> io::Result<()> {
    for left_at in [3, 5] {
        let state = drawn(rt, left_at, start(), 1, 1)?;
        for rate in 1..6u32 {
            octet_and_close(rt, rate, state, 1)?;
        }
    }
    Ok(())
}

// Of four calls one is empty, one has up to three octets, one up to 300, and one any legal number.
fn size(y: u32) -> usize {
    let number = y as usize / 16;
    [0, number % 4, number % 301, number % 2045][y as usize % 4]
}

// Calls one after another until the input is at its end, and the close. No input here takes more than 64 calls; the close would be missing
// if one did. Two lists are cut at places that the state tells, which no iterator of std does: so the places are counted.
fn cut(rt: &impl Print, rate: u32, period: u8, input: &[u8], symbols: &mut [u8]) -> io::Result<()>
    requires { length input.now ≤ 5000 }
{
    let n = input.len();
    let sent = symbols.len();
    let mut state = start();
    let mut at = 0usize;
    let mut written = 0usize;
    let mut y = rate;
    for _ in 0..64 {
        if at >= n {
            return calls::convolve_close(rt, rate, state, &mut symbols[written..]);
        }
        y = turn(y);
        let end = at + size(y).min(n - at);
        let ready = sent.min(written + filled(period, state, end - at));
        calls::convolve(
            rt,
            rate,
            &mut state,
            &input[at..end],
            &mut symbols[written..ready],
        )?;
        at = end;
        written = ready;
    }
    Ok(())
}

// An input longer than any call's: the calls and the close, then all that they wrote, joined.
fn stream(rt: &impl Print, rate: u32, period: u8, sent: usize) -> io::Result<()>
    requires { sent ≤ 10000 }
{
    let mut input = [0u8; 5000];
    let mut symbols = [170u8; 10000];
    let joined = &mut symbols[..sent];
    fill(rate % 256, &mut input);
    cut(rt, rate, period, &input, joined)?;
    println!(rt; "symbols {rate}{}", Buffer(joined))
}

fn at_rate(rt: &impl Print, rate: u32, period: u8, sent: usize) -> io::Result<()>
    requires { (1 ≤ period) × (period ≤ 7) × (sent ≤ 10000) }
{
    let after_five = drawn(rt, rate, start(), 5, filled(period, start(), 5))?;
    close_due(rt, rate, after_five)?;
    lengths(rt, rate, period, start())?;
    lengths(rt, rate, period, drawn_state(rate, period - 1, 5))?;
    place_limits(rt, rate, period)?;
    from_each_place(rt, rate, period)?;
    stream(rt, rate, period, sent)
}

pub(crate) fn all(rt: &impl Print) -> io::Result<()> {
    worked(rt)?;
    for rate in [0, 6, u32::MAX] {
        no_rate(rt, rate)?;
    }
    at_rate(rt, 1, 1, 10000)?;
    at_rate(rt, 2, 2, 7500)?;
    at_rate(rt, 3, 3, 6667)?;
    at_rate(rt, 4, 5, 6000)?;
    at_rate(rt, 5, 7, 5715)?;
    register_limits(rt, 1)?;
    register_limits(rt, 5)?;
    held_limits(rt, 1)?;
    held_limits(rt, 5)?;
    order(rt)?;
    dirt(rt)?;
    between_rates(rt)
}
