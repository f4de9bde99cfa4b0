// Frames in portions: cut anywhere, step by step, and at every limit of a state and one past it.
ghost use Rattle.std.specs.Prelude.{◌≡◌, length, ◌+◌, ◌*◌, ◌≤◌};

use crate::{calls, code};
use frame_portions::Progress;
use pages::{Buffer, Words, encode, fill, turn};
use refusals::Code;
use std::io;

// Portions of 0 to 300 octets. No frame here has more than 64 of them; the close would be refused if one had. Two lists
// are cut at drawn places, which no iterator of std does: so the place is counted.
fn portions(
    rt: &impl Print,
    code: Code,
    seed: u32,
    frame: &[u8],
    block: &mut [u8],
) -> io::Result<Progress>
    requires { length frame.now ≤ length block.old }
{
    let n = frame.len();
    let mut state = Progress::start();
    let mut at = 0usize;
    let mut y = seed;
    for _ in 0..64 {
        if at >= n {
            break;
        }
        y = turn(y);
        let end = n.min(at + y as usize % 301);
        calls::portion(rt, code, &mut state, &frame[at..end], &mut block[at..end])?;
        at = end;
    }
    Ok(state)
}

// The portions and the close, their outputs joined, and the block of the same frame in one call.
fn cut(rt: &impl Print, words: Words) -> io::Result<()> {
    let code = words.code;
    let mut information = [0u8; 2040];
    let mut joined = [170u8; 2040];
    let mut whole = [170u8; 2040];
    let seed = code.strength + code.depth + code.fill;
    fill(seed, &mut information);
    let sent = words.block_length();
    let frame = &information[..words.frame_length()];
    let block = &mut joined[..sent];
    let mut state = portions(rt, code, seed, frame, block)?;
    calls::close(rt, code, &mut state, &mut block[frame.len()..])?;
    println!(rt; "block{}", Buffer(block))?;
    encode(rt, code, frame, &mut whole[..sent])
}

// No fill, one symbol, the middle, and all information symbols but one. `compare` goes over the same fills, to calls of its own.
fn fills(rt: &impl Print, strength: u32, depth: u32) -> io::Result<()>
    requires { (1 ≤ strength) × (strength ≤ 16) × (depth ≤ 8) }
{
    let information = 255 - 2 * strength;
    for fill in [0, 1, information / 2, information - 1] {
        let code = code(strength, depth, fill);
        cut(rt, Words { code })?;
    }
    Ok(())
}

fn cuts(rt: &impl Print) -> io::Result<()> {
    for strength in [8, 16] {
        for depth in [1, 2, 3, 4, 5, 8] {
            fills(rt, strength, depth)?;
        }
    }
    Ok(())
}

// Of the smallest frame at depth 8.
fn part(rt: &impl Print, state: &mut Progress, symbols: &[u8]) -> io::Result<()>
    requires { length symbols.now ≤ 8 }
{
    let mut written = [170u8; 8];
    calls::portion(
        rt,
        code(8, 8, 238),
        state,
        symbols,
        &mut written[..symbols.len()],
    )
}

fn ended(rt: &impl Print, state: &mut Progress) -> io::Result<()> {
    calls::close(rt, code(8, 8, 238), state, &mut [170; 128])
}

// Single octets with empty portions before and between them, and a close too early; then the rest, an octet too many, a close, and calls
// after it.
fn step_by_step(rt: &impl Print) -> io::Result<()> {
    let mut frame = [0u8; 8];
    fill(41, &mut frame);
    let mut state = Progress::start();
    for symbols in [b"", &frame[..1], &frame[1..2], b"", &frame[2..3]] {
        part(rt, &mut state, symbols)?;
    }
    ended(rt, &mut state)?;
    for symbols in [&frame[3..], b"", b"\x55"] {
        part(rt, &mut state, symbols)?;
    }
    ended(rt, &mut state)?;
    part(rt, &mut state, b"")?;
    part(rt, &mut state, b"\x55")?;
    ended(rt, &mut state)
}

// A state that no call handed out, with drawn rows.
fn state_at(place: u32, closed: bool, seed: u32) -> Progress {
    let mut rows = [[0u8; 32]; 8];
    fill(seed, rows.as_flattened_mut());
    Progress {
        place,
        closed,
        rows,
    }
}

// A portion of so many octets into so many.
fn portion_at(
    rt: &impl Print,
    code: Code,
    mut state: Progress,
    seed: u32,
    portion: usize,
    written: usize,
) -> io::Result<()> {
    let mut symbols = [0u8; 301];
    let mut output = [170u8; 301];
    fill(seed, &mut symbols);
    if portion <= 301 && written <= 301 {
        calls::portion(
            rt,
            code,
            &mut state,
            &symbols[..portion],
            &mut output[..written],
        )?;
    }
    Ok(())
}

fn close_at(rt: &impl Print, code: Code, mut state: Progress, checks: usize) -> io::Result<()> {
    let mut output = [170u8; 256];
    if checks <= 256 {
        calls::close(rt, code, &mut state, &mut output[..checks])?;
    }
    Ok(())
}

// A code, place and flag of a state, and the lengths of the portion and of the output. A frame of the first code has 1115 octets.
static PORTIONS: [(u32, u32, u32, u32, bool, usize, usize); 32] = [
    // Lengths, places and closed states.
    (16, 5, 0, 0, false, 0, 0),
    (16, 5, 0, 0, false, 1, 1),
    (16, 5, 0, 0, false, 300, 300),
    (16, 5, 0, 0, false, 301, 301),
    (16, 5, 0, 0, false, 301, 300),
    (16, 5, 0, 0, false, 300, 299),
    (16, 5, 0, 0, false, 300, 301),
    (16, 5, 0, 0, false, 1, 0),
    (16, 5, 0, 0, false, 0, 1),
    (16, 5, 0, 1115, false, 0, 0),
    (16, 5, 0, 1115, false, 1, 1),
    (16, 5, 0, 1114, false, 1, 1),
    (16, 5, 0, 1114, false, 2, 2),
    (16, 5, 0, 815, false, 300, 300),
    (16, 5, 0, 816, false, 300, 300),
    (16, 5, 0, 1116, false, 0, 0),
    (16, 5, 0, u32::MAX, false, 0, 0),
    (16, 5, 0, u32::MAX, false, 1, 1),
    (16, 5, 0, u32::MAX, false, 300, 300),
    (16, 5, 0, 0, true, 0, 0),
    (16, 5, 0, 1115, true, 0, 0),
    (16, 5, 0, 7, true, 5, 5),
    // Two faults at once: the one that comes first in the order is the answer.
    (16, 5, 0, 7, true, 5, 4),
    (16, 5, 0, 1115, false, 2, 1),
    (16, 5, 0, 1115, false, 301, 301),
    (16, 5, 0, 7, true, 301, 300),
    (7, 5, 0, 0, false, 301, 301),
    (7, 6, 0, 0, false, 1, 1),
    (16, 6, 223, 0, false, 0, 0),
    (16, 5, 223, 0, false, 301, 301),
    (16, 5, 223, 0, true, 0, 0),
    (u32::MAX, u32::MAX, u32::MAX, u32::MAX, true, 0, 0),
];

// The same of a close, which gives 160 octets at the first code; then two faults at once, numbers out of range, and the shortest frames.
static CLOSES: [(u32, u32, u32, u32, bool, usize); 21] = [
    (16, 5, 0, 1115, false, 160),
    (16, 5, 0, 1115, false, 159),
    (16, 5, 0, 1115, false, 161),
    (16, 5, 0, 1115, false, 0),
    (16, 5, 0, 1114, false, 160),
    (16, 5, 0, 1116, false, 160),
    (16, 5, 0, 0, false, 160),
    (16, 5, 0, u32::MAX, false, 160),
    (16, 5, 0, 1115, true, 160),
    (16, 5, 0, 1115, true, 159),
    (16, 5, 0, 0, false, 161),
    (9, 5, 0, 1185, false, 90),
    (16, 0, 0, 0, false, 0),
    (16, 5, 223, 0, false, 160),
    (15, 7, 0, 1575, false, 210),
    (16, 7, 223, 0, false, 224),
    (16, 5, 223, 0, false, 159),
    (16, 1, 222, 1, false, 32),
    (16, 1, 222, 0, false, 32),
    (8, 8, 238, 8, false, 128),
    (8, 8, 238, 7, false, 128),
];

fn portion_rows(rt: &impl Print) -> io::Result<()> {
    for strength in [8, 16] {
        for depth in [1, 2, 3, 4, 5, 8] {
            let seed = 16 * depth + strength;
            let state = state_at(7, false, seed);
            portion_at(rt, code(strength, depth, 3), state, seed + 1, 100, 100)?;
        }
    }
    Ok(())
}

fn close_rows(rt: &impl Print) -> io::Result<()> {
    for strength in [8, 16] {
        for depth in [1, 2, 3, 4, 5, 8] {
            let place = depth * (252 - 2 * strength);
            let checks = (depth * 2 * strength) as usize;
            let state = state_at(place, false, 16 * depth + strength);
            close_at(rt, code(strength, depth, 3), state, checks)?;
        }
    }
    Ok(())
}

fn limits_of_portions(rt: &impl Print) -> io::Result<()> {
    for &(strength, depth, fill, place, closed, portion, written) in &PORTIONS {
        portion_at(
            rt,
            code(strength, depth, fill),
            state_at(place, closed, 43),
            44,
            portion,
            written,
        )?;
    }
    portion_rows(rt)
}

fn limits_of_closes(rt: &impl Print) -> io::Result<()> {
    for &(strength, depth, fill, place, closed, checks) in &CLOSES {
        close_at(
            rt,
            code(strength, depth, fill),
            state_at(place, closed, 47),
            checks,
        )?;
    }
    close_rows(rt)
}

pub(crate) fn all(rt: &impl Print) -> io::Result<()> {
    cuts(rt)?;
    step_by_step(rt)?;
    limits_of_portions(rt)?;
    limits_of_closes(rt)
}
