// Reed-Solomon words: worked cases, allowances, and near codewords that do not count.
ghost use Rattle.std.specs.Prelude.{length, ◌+◌, ◌≤◌};

use crate::wrong::{changes, put};
use crate::{code, shortest};
use pages::{Octets, Words, decode, encode, fill};
use refusals::Code;
use std::io;

// Cases (J) and (K) of document 01.
fn worked(rt: &impl Print) -> io::Result<()> {
    let shortest = code(16, 1, 222);
    let mut block = [170u8; 33];
    encode(rt, shortest, b"\x00", &mut block)?;
    println!(rt; "block{}", Octets(&block))?;
    put(&mut block, 0, 16, 0xFF);
    decode(rt, shortest, 16, &block, &mut [170])?;
    decode(rt, shortest, 15, &block, &mut [170])
}

// The first symbols of a codeword of the shortest word, then zeros: nearer to the codeword than to the zero word, or not.
fn part(rt: &impl Print, words: Words, octet: u8, kept: usize, block: &mut [u8]) -> io::Result<()> {
    let code = words.code;
    let n = block.len();
    encode(rt, code, &[octet], block)?;
    put(block, kept, n, 0);
    decode(rt, code, code.strength, block, &mut [170])?;
    decode(rt, code, code.strength - 1, block, &mut [170])
}

fn parts(rt: &impl Print, octet: u8) -> io::Result<()> {
    let mut long = [170u8; 33];
    let mut short = [170u8; 17];
    part(rt, shortest(16, 222), octet, 17, &mut long)?;
    part(rt, shortest(16, 222), octet, 16, &mut long)?;
    part(rt, shortest(8, 238), octet, 9, &mut short)?;
    part(rt, shortest(8, 238), octet, 8, &mut short)
}

// A frame of so many octets, with 170s before.
fn decoded(rt: &impl Print, code: Code, s: u32, block: &[u8], frame: usize) -> io::Result<()>
    requires { frame ≤ 2040 }
{
    let mut delivered = [170u8; 2040];
    decode(rt, code, s, block, &mut delivered[..frame])
}

// Three words with more wrong symbols from word to word: the word named is never an earlier one at a larger allowance.
fn allowances(rt: &impl Print, words: Words, wrong: [usize; 3]) -> io::Result<()> {
    let code = words.code;
    let frame = words.frame_length();
    let mut information = [0u8; 2040];
    let mut block = [170u8; 165];
    fill(21, &mut information);
    encode(rt, code, &information[..frame], &mut block)?;
    for (word, wrong) in wrong.iter().enumerate() {
        changes(&mut block, word, 3, *wrong, 0x5A);
    }
    for s in 0..code.strength + 2 {
        decoded(rt, code, s, &block, frame)?;
    }
    Ok(())
}

// A full codeword whose last fill symbol is `last`, and zero before it: sent without them, with some wrong symbols.
fn nonzero_fill(
    rt: &impl Print,
    strength: u32,
    fill: usize,
    last: u8,
    wrong: usize,
    frame: &mut [u8],
) -> io::Result<()>
    requires { (1 ≤ fill) × (fill ≤ 100) × (fill ≤ length frame.old) × (length frame.old ≤ 255) }
{
    let mut block = [170u8; 255];
    pages::fill(31, frame);
    frame[..fill - 1].fill(0);
    frame[fill - 1] = last;
    encode(rt, code(strength, 1, 0), frame, &mut block)?;
    changes(&mut block, fill, 3, wrong, 0x33);
    let sent = code(strength, 1, fill as u32);
    decoded(rt, sent, strength, &block[fill..], frame.len() - fill)
}

fn nonzero_fills(rt: &impl Print, last: u8) -> io::Result<()> {
    let mut long = [0u8; 223];
    for (fill, wrong) in [(1, 0), (1, 15), (1, 16), (5, 0), (100, 15)] {
        nonzero_fill(rt, 16, fill, last, wrong, &mut long)?;
    }
    let mut longer = [0u8; 239];
    for (fill, wrong) in [(1, 0), (1, 7), (3, 7)] {
        nonzero_fill(rt, 8, fill, last, wrong, &mut longer)?;
    }
    Ok(())
}

// Seventeen wrong symbols, with each of the faults that come before refusal 10.
fn lost(rt: &impl Print) -> io::Result<()> {
    let shortest = code(16, 1, 222);
    let mut block = [0u8; 33];
    block[..17].fill(0xFF);
    decoded(rt, shortest, 16, &block, 1)?;
    decoded(rt, shortest, 16, &block, 2)?;
    decoded(rt, shortest, 16, &block, 0)?;
    decoded(rt, shortest, 16, &block[..32], 1)?;
    decoded(rt, shortest, 16, &block[..32], 2)?;
    decoded(rt, shortest, 16, b"", 1)?;
    decoded(rt, shortest, 17, &block, 1)?;
    decoded(rt, shortest, 17, &block[..32], 2)
}

pub(crate) fn all(rt: &impl Print) -> io::Result<()> {
    worked(rt)?;
    for octet in [0x01, 0x80, 0xA5, 0xFF] {
        parts(rt, octet)?;
    }
    for (code, wrong) in [(code(16, 3, 200), [4, 9, 16]), (code(8, 3, 200), [2, 5, 9])] {
        allowances(rt, Words { code }, wrong)?;
    }
    nonzero_fills(rt, 0)?;
    nonzero_fills(rt, 1)?;
    lost(rt)
}
