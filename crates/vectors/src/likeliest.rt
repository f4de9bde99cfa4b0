// The decoder at rate 1/2: at every limit and one past it, from each register, where inputs tie, and through noise, in one call and in two.
ghost use Rattle.std.specs.Prelude.{length, ◌≤◌};

use crate::wrong::change;
use crate::{calls, convolving};
use pages::{Buffer, fill, turn};
use std::io;

// Each output here has a given length and holds 170 before.
fn with_output(rt: &impl Print, register: u32, received: &[u8], output: usize) -> io::Result<u32> {
    let mut found = [170u8; 257];
    if output > 257 {
        return Ok(register);
    }
    calls::likeliest(rt, register, received, &mut found[..output])
}

// A call on symbols that are drawn.
fn drawn(rt: &impl Print, register: u32, received: usize, output: usize) -> io::Result<()> {
    let mut symbols = [0u8; 514];
    fill(register % 256, &mut symbols);
    if received <= 514 {
        with_output(rt, register, &symbols[..received], output)?;
    }
    Ok(())
}

// A call on symbols that are given.
fn given(rt: &impl Print, register: u32, received: &[u8]) -> io::Result<u32> {
    with_output(rt, register, received, received.len() / 2)
}

// A register, and the lengths of the symbols and of the output.
static DRAWN: [(u32, usize, usize); 39] = [
    // The register's limits and one past them.
    (0, 0, 0),
    (63, 0, 0),
    (63, 2, 1),
    (64, 0, 0),
    (64, 2, 1),
    (u32::MAX, 0, 0),
    (u32::MAX, 2, 1),
    // Those of the lengths: none, few, an odd number, and the most, and outputs of wrong lengths.
    (0, 0, 1),
    (5, 2, 0),
    (5, 2, 2),
    (5, 4, 0),
    (5, 4, 1),
    (5, 4, 3),
    (5, 4, 4),
    (5, 1, 0),
    (5, 1, 1),
    (5, 3, 1),
    (5, 3, 2),
    (5, 511, 255),
    (5, 511, 256),
    (5, 513, 256),
    (5, 513, 257),
    (5, 510, 255),
    (5, 512, 256),
    (5, 512, 255),
    (5, 512, 257),
    (5, 512, 0),
    (5, 514, 257),
    // Two or three faults at once: the one that comes first in the order is the answer.
    (5, 514, 256),
    (5, 514, 0),
    (5, 3, 0),
    (63, 513, 0),
    (64, 1, 0),
    (64, 3, 3),
    (64, 2, 0),
    (64, 512, 257),
    (64, 513, 0),
    (u32::MAX, 514, 257),
    (u32::MAX, 513, 1),
];

// One octet from each register, and two from some.
fn registers(rt: &impl Print) -> io::Result<()> {
    for register in 0..64u32 {
        drawn(rt, register, 2, 1)?;
    }
    for register in [0, 1, 21, 32, 42, 62, 63] {
        drawn(rt, register, 4, 2)?;
    }
    Ok(())
}

// Inputs that differ in equally few places: two that part at the first bit, at the second, the fifth and the last, then twelve and
// thirteen; and of two octets two that meet again in one register.
fn equals(rt: &impl Print) -> io::Result<()> {
    given(rt, 0, b"\x00\x01")?;
    given(rt, 21, b"\x00\x04")?;
    given(rt, 0, b"\x40\x15")?;
    given(rt, 0, b"\x55\x11")?;
    given(rt, 0, b"\x55\x54")?;
    given(rt, 21, b"\x50\x01")?;
    given(rt, 0, b"\x41\x11")?;
    given(rt, 0, b"\x44\x41")?;
    given(rt, 42, b"\x5A\x89\x55\x55")?;
    given(rt, 42, b"\x7F\x97\x59\xE3")?;
    Ok(())
}

// The symbols in one call, then in two of half the length, the second from the register that the first reached.
fn whole_and_halves(rt: &impl Print, register: u32, received: &[u8]) -> io::Result<()> {
    let (front, back) = received.split_at(received.len() / 2);
    given(rt, register, received)?;
    let reached = given(rt, register, front)?;
    given(rt, reached, back)?;
    Ok(())
}

// A symbol becomes wrong where the octet that is drawn for it is below the given number: so many in 256.
fn noise(often: u8, symbols: &mut [u8])
    requires { length symbols.old ≤ 512 }
{
    let mut y = u32::from(often);
    // By the symbol's number: eight of them are in each octet.
    for place in 0..8 * symbols.len() {
        y = turn(y);
        if pages::drawn(y) < often {
            change(symbols, place / 8, 128u8 >> (place % 8));
        }
    }
}

// Drawn data, coded, and received with so many wrong symbols in 256.
fn through_noise(rt: &impl Print, register: u8, octets: usize, often: u8) -> io::Result<()>
    requires { octets ≤ 256 }
{
    let mut given = [0u8; 256];
    let mut coded = [170u8; 512];
    let mut state = convolving::state_at(register, 0, 0, 0);
    fill(octets as u32 + u32::from(register), &mut given);
    let sent = &given[..octets];
    let symbols = &mut coded[..2 * octets];
    println!(rt; "data{}", Buffer(sent))?;
    calls::convolve(rt, 1, &mut state, sent, symbols)?;
    noise(often, symbols);
    whole_and_halves(rt, u32::from(register), symbols)
}

pub(crate) fn all(rt: &impl Print) -> io::Result<()> {
    for &(register, received, output) in &DRAWN {
        drawn(rt, register, received, output)?;
    }
    registers(rt)?;
    equals(rt)?;
    // One wrong symbol, set right in one call and not in two.
    whole_and_halves(rt, 0, b"\x55\x54\xE9\x25")?;
    for octets in [16, 256] {
        for (register, often) in [(0, 0), (9, 4), (27, 16), (45, 32), (63, 128)] {
            through_noise(rt, register, octets, often)?;
        }
    }
    Ok(())
}
