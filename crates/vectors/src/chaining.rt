// The chain: both flags, every limit and one past it, then as it was sent and inverted: wrong markers, damage, and two faults at once.
ghost use Rattle.std.specs.Prelude.{◌≤◌};

use crate::wrong::{change, changes};
use crate::{calls, code};
use pages::fill;
use refusals::Code;
use std::io;

// Into a frame of so many octets, with 170s before.
fn received(
    rt: &impl Print,
    code: Code,
    s: u32,
    tolerance: u32,
    randomised: bool,
    marked: &[u8],
    frame: usize,
) -> io::Result<()> {
    let mut delivered = [170u8; 2048];
    if frame <= 2048 {
        calls::receive(
            rt,
            code,
            s,
            tolerance,
            randomised,
            marked,
            &mut delivered[..frame],
        )?;
    }
    Ok(())
}

// With all that the code and a marker allow.
fn received_at_most(
    rt: &impl Print,
    code: Code,
    randomised: bool,
    marked: &[u8],
    frame: usize,
) -> io::Result<()> {
    received(rt, code, code.strength, 3, randomised, marked, frame)
}

// All bits, not by the library's own function: what is tried does not make what it is tried with.
fn invert(s: &mut [u8]) {
    for octet in s {
        *octet = !*octet;
    }
}

// What a demodulator may make of a marked block: the block alone inverted, the marker alone, both.
fn inverted(
    rt: &impl Print,
    code: Code,
    opened: bool,
    marked: &mut [u8],
    frame: usize,
) -> io::Result<()> {
    for start in [4, 0, 4] {
        if let Some(part) = marked.get_mut(start..) {
            invert(part);
        }
        received_at_most(rt, code, opened, marked, frame)?;
    }
    Ok(())
}

// With so many wrong octets, E in each word, and with one more.
fn worn_out(
    rt: &impl Print,
    code: Code,
    opened: bool,
    worn: usize,
    marked: &mut [u8],
    frame: usize,
) -> io::Result<()>
    requires { worn ≤ 128 }
{
    changes(marked, 4, 1, worn, 0x5A);
    received_at_most(rt, code, opened, marked, frame)?;
    change(marked, 4 + worn, 0x5A);
    received_at_most(rt, code, opened, marked, frame)
}

// Transmit with one flag, and receive of what then stands there with the other or the same; then inverted and worn out, if octets are to be
// wrong. The frame is drawn, and the marked block holds 170 before; after a refusal the 170s are received.
fn there_and_back(
    rt: &impl Print,
    code: Code,
    sent: bool,
    opened: bool,
    worn: usize,
    frame: usize,
    marked: usize,
) -> io::Result<()>
    requires { (worn ≤ 128) × (frame ≤ 2048) × (marked ≤ 2304) }
{
    let mut given = [0u8; 2048];
    let mut coded = [170u8; 2304];
    let lent = &mut coded[..marked];
    fill(37, &mut given);
    calls::transmit(rt, code, sent, &given[..frame], lent)?;
    received_at_most(rt, code, opened, lent, frame)?;
    if worn > 0 {
        inverted(rt, code, opened, lent, frame)?;
        worn_out(rt, code, opened, worn, lent, frame)?;
    }
    Ok(())
}

// The shortest and the longest marked block, and some between them, at every depth. E I octets are to be wrong.
fn codes(rt: &impl Print) -> io::Result<()> {
    for (code, worn, frame, marked) in [
        (code(16, 1, 222), 16, 1, 37),
        (code(8, 2, 238), 16, 2, 38),
        (code(8, 3, 100), 24, 417, 469),
        (code(16, 4, 1), 64, 888, 1020),
        (code(16, 5, 0), 80, 1115, 1279),
        (code(8, 8, 0), 64, 1912, 2044),
    ] {
        for (sent, opened) in [(false, false), (true, true), (true, false)] {
            there_and_back(rt, code, sent, opened, worn, frame, marked)?;
        }
    }
    there_and_back(rt, code(8, 8, 0), false, true, 64, 1912, 2044)
}

// Each parameter out of its range.
fn parameters(rt: &impl Print) -> io::Result<()> {
    for (code, frame, marked) in [
        (code(7, 1, 0), 241, 259),
        (code(9, 6, 0), 1422, 1534),
        (code(17, 1, 0), 221, 259),
        (code(16, 0, 0), 0, 4),
        (code(16, 6, 223), 0, 196),
        (code(16, 9, 0), 2007, 2299),
        (code(16, 1, 223), 0, 36),
        (code(8, 1, 239), 1, 20),
    ] {
        there_and_back(rt, code, true, true, 0, frame, marked)?;
    }
    Ok(())
}

// Each length one short and one over, both wrong, and empty ones.
fn lengths(rt: &impl Print) -> io::Result<()> {
    let shortest = code(16, 1, 222);
    for (frame, marked) in [(0, 37), (2, 37), (1, 36), (1, 38), (2, 36), (0, 0)] {
        there_and_back(rt, shortest, true, true, 0, frame, marked)?;
    }
    let longest = code(8, 8, 0);
    there_and_back(rt, longest, true, true, 0, 1912, 2045)?;
    there_and_back(rt, longest, true, true, 0, 1913, 2044)
}

// A marker with no to four wrong bits, at each tolerance and one past the last.
fn wrong_markers(rt: &impl Print, added: u8) -> io::Result<()> {
    let shortest = code(16, 1, 222);
    let mut marked = [170u8; 37];
    calls::transmit(rt, shortest, true, b"\xC3", &mut marked)?;
    changes(&mut marked, 0, 1, 37, added);
    for (at, bit) in [(0, 0x00), (0, 0x80), (3, 0x01), (1, 0x10), (2, 0x08)] {
        change(&mut marked, at, bit);
        for tolerance in 0..5 {
            received(rt, shortest, 16, tolerance, true, &marked, 1)?;
        }
    }
    Ok(())
}

// Word 1 of three with E wrong symbols, then one in word 0 too, then one more in word 1.
fn damaged(
    rt: &impl Print,
    strength: u32,
    randomised: bool,
    added: u8,
    frame: &mut [u8],
) -> io::Result<()>
    requires { 1 ≤ strength }
{
    let code = code(strength, 3, 200);
    let mut marked = [170u8; 169];
    let n = frame.len();
    fill(41, frame);
    calls::transmit(rt, code, randomised, frame, &mut marked)?;
    changes(&mut marked, 0, 1, 169, added);
    changes(&mut marked, 5, 3, strength as usize, 0x5A);
    received(rt, code, strength, 0, randomised, &marked, n)?;
    received(rt, code, strength - 1, 0, randomised, &marked, n)?;
    change(&mut marked, 4, 0x5A);
    received(rt, code, strength, 0, randomised, &marked, n)?;
    received(rt, code, 0, 0, randomised, &marked, n)?;
    change(&mut marked, 167, 0x5A);
    received(rt, code, strength, 0, randomised, &marked, n)
}

// A lost word behind a wrong marker, and before them one by one the faults that come earlier in the order.
fn earlier_faults(rt: &impl Print, marked: &[u8; 37]) -> io::Result<()> {
    let short = &marked[..36];
    for (code, s, tolerance, lent, frame) in [
        (code(16, 1, 222), 16, 3, &marked[..], 2),
        (code(16, 1, 222), 16, 3, short, 2),
        (code(16, 1, 222), 16, 4, short, 1),
        (code(16, 1, 222), 17, 4, marked, 1),
        (code(16, 1, 223), 17, 3, marked, 1),
        (code(16, 6, 223), 17, 3, marked, 1),
        (code(15, 6, 223), 17, 3, marked, 1),
        (code(16, 1, 222), u32::MAX, u32::MAX, b"", 0),
        (code(16, 1, 222), 16, u32::MAX, b"", 0),
        (code(16, 1, 222), 0, 0, b"", 1),
    ] {
        received(rt, code, s, tolerance, false, lent, frame)?;
    }
    Ok(())
}

// A lost word, then a wrong marker too, then the earlier faults.
fn two_faults(rt: &impl Print, added: u8) -> io::Result<()> {
    let shortest = code(16, 1, 222);
    let mut marked = [170u8; 37];
    calls::transmit(rt, shortest, false, b"\x00", &mut marked)?;
    changes(&mut marked, 0, 1, 37, added);
    changes(&mut marked, 4, 1, 17, 0xFF);
    received(rt, shortest, 16, 3, false, &marked, 1)?;
    changes(&mut marked, 0, 1, 4, 0x40);
    received(rt, shortest, 16, 3, false, &marked, 1)?;
    earlier_faults(rt, &marked)
}

// All marked blocks as they were sent, or with all bits inverted.
pub(crate) fn all(rt: &impl Print) -> io::Result<()> {
    codes(rt)?;
    parameters(rt)?;
    lengths(rt)?;
    for added in [0x00, 0xFF] {
        wrong_markers(rt, added)?;
        damaged(rt, 16, true, added, &mut [0; 69])?;
        damaged(rt, 8, false, added, &mut [0; 117])?;
        two_faults(rt, added)?;
    }
    Ok(())
}
