// Salvage: any words of a block lost, near codewords that do not count, and every limit and one past it.
ghost use Rattle.std.specs.Prelude.{length, ◌+◌, ◌*◌, ◌≤◌};

use crate::wrong::{change, put};
use crate::{calls, code, shortest};
use octets::copy_front;
use pages::{Words, drawn, encode, fill, turn};
use refusals::{Code, verdict_number};
use std::io;

// Into a frame of so many octets, with 170s before, and a list of so many that are drawn.
fn salvaged(
    rt: &impl Print,
    code: Code,
    s: u32,
    block: &[u8],
    frame: usize,
    list: usize,
) -> io::Result<()> {
    let mut delivered = [170u8; 2048];
    let mut listed = [0u8; 8192];
    fill(51, &mut listed);
    if frame <= 2048 && list <= 8192 {
        calls::salvage(
            rt,
            code,
            s,
            block,
            &mut delivered[..frame],
            &mut listed[..list],
        )?;
    }
    Ok(())
}

// Into a frame and a list of the right lengths.
fn whole(rt: &impl Print, words: Words, s: u32, block: &[u8]) -> io::Result<()> {
    let frame = words.frame_length();
    let list = 4 * words.block_length();
    salvaged(rt, words.code, s, block, frame, list)
}

// So many octets changed by drawn values, from the last on, each so many places before the one before; at the front it stays there, where a range
// would end.
fn wear_word(block: &mut [u8], last: usize, step: usize, wrong: u8, seed: u32) {
    let mut at = last;
    let mut y = seed;
    for _ in 0..wrong {
        y = turn(y);
        change(block, at, drawn(y) | 1);
        at = at.saturating_sub(step);
    }
}

// So many wrong symbols in each word, the last of them its last symbol. From one wrong symbol to the next it is so far that E + 1 of them
// find a place.
fn wear(block: &mut [u8], words: Words, wrong: &[u8; 8]) {
    let code = words.code;
    let depth = code.depth as usize;
    let step = (254 - code.fill) / code.strength;
    if let Some(first) = block.len().checked_sub(depth) {
        for (word, wrong) in wrong[..depth].iter().enumerate() {
            wear_word(
                block,
                first + word,
                depth * step as usize,
                *wrong,
                word as u32,
            );
        }
    }
}

// A block that is received with so many wrong symbols in each word.
fn worn(rt: &impl Print, words: Words, s: u32, wrong: &[u8; 8], block: &[u8]) -> io::Result<()> {
    let mut copied = [0u8; 2040];
    let received = &mut copied[..words.block_length()];
    copy_front(block, received);
    wear(received, words, wrong);
    whole(rt, words, s, received)
}

// The block of a drawn frame.
fn encoded(rt: &impl Print, words: Words, seed: u32, block: &mut [u8]) -> io::Result<()> {
    let mut frame = [0u8; 2040];
    fill(seed, &mut frame);
    encode(rt, words.code, &frame[..words.frame_length()], block)
}

// A clean block; few wrong symbols, all words repaired, then some, then the clean one only; as many as can be in every word, then all
// words lost by the allowance; the first word past E, and of five and eight words the fifth; all words past E.
fn damages(rt: &impl Print, words: Words, block: &[u8]) -> io::Result<()> {
    let e = words.code.strength;
    let most = e as u8;
    let past = most + 1;
    let few = [1, 0, 2, 3, 4, 5, 6, 7];
    for (s, wrong) in [
        (0, [0; 8]),
        (e, few),
        (3, few),
        (0, few),
        (e, [most; 8]),
        (e - 1, [most; 8]),
        (e, [past, 1, 0, most, past, 2, 0, 1]),
        (e, [past; 8]),
    ] {
        worn(rt, words, s, &wrong, block)?;
    }
    Ok(())
}

fn any_words_lost(rt: &impl Print, words: Words) -> io::Result<()> {
    let mut sent = [170u8; 2040];
    let block = &mut sent[..words.block_length()];
    encoded(rt, words, 61, block)?;
    damages(rt, words, block)
}

fn codes(rt: &impl Print) -> io::Result<()> {
    for code in [
        code(16, 1, 222),
        code(8, 1, 0),
        code(16, 2, 0),
        code(8, 2, 238),
        code(16, 3, 100),
        code(8, 3, 1),
        code(16, 4, 1),
        code(8, 4, 100),
        code(16, 5, 0),
        code(8, 5, 238),
        code(16, 8, 0),
        code(8, 8, 0),
        code(16, 8, 222),
        code(8, 8, 238),
    ] {
        any_words_lost(rt, Words { code })?;
    }
    Ok(())
}

// Three words, the third with E wrong symbols, at the allowances about their numbers, and one past E.
fn allowances(rt: &impl Print, words: Words, first: u8, second: u8) -> io::Result<()>
    requires { (1 ≤ first) × (1 ≤ second) }
{
    let e = words.code.strength;
    let mut block = [170u8; 165];
    let wrong = [first, second, e as u8, 0, 0, 0, 0, 0];
    encoded(rt, words, 67, &mut block)?;
    for s in [u32::from(first), u32::from(second), e] {
        worn(rt, words, s - 1, &wrong, &block)?;
        worn(rt, words, s, &wrong, &block)?;
    }
    worn(rt, words, e + 1, &wrong, &block)
}

// Case (K) of document 01, then one more symbol wrong.
fn worked(rt: &impl Print) -> io::Result<()> {
    let words = shortest(16, 222);
    let mut block = [0u8; 33];
    whole(rt, words, 0, &block)?;
    block[..16].fill(0xFF);
    whole(rt, words, 16, &block)?;
    whole(rt, words, 15, &block)?;
    block[16] = 0xFF;
    whole(rt, words, 16, &block)
}

// The first symbols of a codeword of the shortest word, then zeros: repaired to the codeword, or to the zero word.
fn part(rt: &impl Print, words: Words, kept: usize, block: &mut [u8]) -> io::Result<()> {
    let n = block.len();
    encode(rt, words.code, b"\xA5", block)?;
    put(block, kept, n, 0);
    whole(rt, words, words.code.strength, block)?;
    whole(rt, words, words.code.strength - 1, block)
}

fn parts(rt: &impl Print) -> io::Result<()> {
    let mut long = [170u8; 33];
    let mut short = [170u8; 17];
    part(rt, shortest(16, 222), 17, &mut long)?;
    part(rt, shortest(16, 222), 16, &mut long)?;
    part(rt, shortest(8, 238), 9, &mut short)?;
    part(rt, shortest(8, 238), 8, &mut short)
}

// Full codewords sent without their fill, which is zero but for its last symbol in the last word; some symbols wrong in each.
fn nonzero_fill(rt: &impl Print, words: Words, last: u8, wrong: u8) -> io::Result<()>
    requires { (1 ≤ words.code.depth) × (1 ≤ words.code.fill) }
{
    let code = words.code;
    let full = Words {
        code: Code { fill: 0, ..code },
    };
    let unsent = (code.fill * code.depth) as usize;
    let mut frame = [0u8; 2040];
    let mut block = [170u8; 2040];
    fill(71, &mut frame);
    frame[..unsent - 1].fill(0);
    frame[unsent - 1] = last;
    let whole = &mut block[..full.block_length()];
    encode(rt, full.code, &frame[..full.frame_length()], whole)?;
    worn(rt, words, code.strength, &[wrong; 8], &whole[unsent..])
}

fn nonzero_fills(rt: &impl Print, last: u8) -> io::Result<()> {
    for (code, wrong) in [
        (code(16, 1, 1), 0),
        (code(16, 1, 100), 15),
        (code(16, 3, 5), 15),
        (code(16, 8, 1), 2),
        (code(8, 1, 1), 0),
        (code(8, 2, 3), 7),
        (code(8, 5, 100), 1),
        (code(8, 8, 1), 8),
    ] {
        nonzero_fill(rt, Words { code }, last, wrong)?;
    }
    Ok(())
}

// The shared check of the numbers and lengths, and the call itself where its buffers are not too long to be lent here.
fn limited(
    rt: &impl Print,
    code: Code,
    s: u32,
    block: usize,
    frame: usize,
    list: usize,
) -> io::Result<()> {
    let verdict = refusals::salvage_parameters(code, s, block, frame, list);
    println!(rt; "salvage-limits {}", verdict_number(verdict))?;
    let mut received = [0u8; 2048];
    fill(73, &mut received);
    if block <= 2048 {
        salvaged(rt, code, s, &received[..block], frame, list)?;
    }
    Ok(())
}

// A code, the allowance, and the lengths of block, frame and list.
static LIMITS: [(u32, u32, u32, u32, usize, usize, usize); 55] = [
    // Numbers.
    (0, 1, 0, 0, 255, 255, 1020),
    (7, 1, 0, 0, 255, 241, 1020),
    (9, 1, 0, 0, 255, 237, 1020),
    (15, 1, 0, 0, 255, 225, 1020),
    (17, 1, 0, 0, 255, 221, 1020),
    (u32::MAX, 1, 0, 0, 255, 255, 1020),
    (16, 0, 0, 0, 0, 0, 0),
    (16, 6, 0, 16, 1530, 1338, 6120),
    (16, 7, 0, 16, 1785, 1561, 7140),
    (8, 9, 238, 8, 153, 9, 612),
    (16, u32::MAX, 0, 0, 0, 0, 0),
    (16, 1, 222, 16, 33, 1, 132),
    (16, 1, 223, 16, 32, 0, 128),
    (8, 1, 238, 8, 17, 1, 68),
    (8, 1, 239, 8, 16, 0, 64),
    (8, 1, u32::MAX, 8, 17, 1, 68),
    (16, 1, 222, 17, 33, 1, 132),
    (8, 1, 238, 9, 17, 1, 68),
    (16, 1, 222, u32::MAX, 33, 1, 132),
    // Block, frame and list, each one short, one long and empty; lists of other lengths; then lengths that are right but for higher bits.
    (16, 1, 222, 16, 32, 1, 132),
    (16, 1, 222, 16, 34, 1, 132),
    (16, 1, 222, 16, 34, 1, 136),
    (16, 1, 222, 16, 0, 1, 0),
    (16, 1, 222, 16, 33, 0, 132),
    (16, 1, 222, 16, 33, 2, 132),
    (16, 1, 222, 16, 33, 1, 131),
    (16, 1, 222, 16, 33, 1, 133),
    (16, 1, 222, 16, 33, 1, 128),
    (16, 1, 222, 16, 33, 1, 136),
    (16, 1, 222, 16, 33, 1, 4),
    (16, 1, 222, 16, 33, 1, 33),
    (16, 1, 222, 16, 33, 1, 0),
    (8, 8, 0, 8, 2041, 1912, 8160),
    (8, 8, 0, 8, 2040, 1911, 8160),
    (8, 8, 0, 8, 2040, 1913, 8160),
    (8, 8, 0, 8, 2040, 1912, 8159),
    (8, 8, 0, 8, 2040, 1912, 8161),
    (8, 8, 0, 8, 2040, 1912, 7648),
    (8, 8, 0, 8, 2040, 1912, 2040),
    (16, 1, 222, 16, 33, 1, 65668),
    (16, 1, 222, 16, 33, 1, 4294967428),
    (16, 1, 222, 16, 33, 4294967297, 132),
    (16, 1, 222, 16, 4294967329, 1, 132),
    (16, 1, 222, 16, 33, 1, usize::MAX),
    // Two faults or more: the one that comes first in the order is the answer.
    (7, 6, 0, 0, 33, 1, 132),
    (16, 6, 223, 0, 33, 1, 132),
    (16, 1, 223, 17, 33, 1, 132),
    (16, 1, 222, 17, 32, 1, 132),
    (16, 1, 222, 17, 33, 2, 132),
    (16, 1, 222, 17, 33, 1, 131),
    (16, 1, 222, 16, 32, 2, 132),
    (16, 1, 222, 16, 32, 1, 128),
    (16, 1, 222, 16, 33, 2, 131),
    (16, 1, 222, 16, 32, 0, 0),
    (u32::MAX, u32::MAX, u32::MAX, u32::MAX, 0, 0, 1),
];

pub(crate) fn all(rt: &impl Print) -> io::Result<()> {
    worked(rt)?;
    parts(rt)?;
    codes(rt)?;
    for (code, first, second) in [(code(16, 3, 200), 4, 9), (code(8, 3, 200), 2, 5)] {
        allowances(rt, Words { code }, first, second)?;
    }
    nonzero_fills(rt, 0)?;
    nonzero_fills(rt, 1)?;
    for &(strength, depth, fill, s, block, frame, list) in &LIMITS {
        limited(rt, code(strength, depth, fill), s, block, frame, list)?;
    }
    Ok(())
}
