// One code: a drawn frame, its block, and that block with several kinds of damage.
use crate::damage::{Damage, wear};
use octets::copy_front;
use pages::Words;
use std::io;

// The block damaged, and decoded.
fn damaged(rt: &impl Print, words: Words, damage: Damage, s: u32, block: &[u8]) -> io::Result<()> {
    let mut received = [0u8; 2040];
    let mut delivered = [170u8; 2040];
    let lent = &mut received[..words.block_length()];
    copy_front(block, lent);
    wear(lent, words, damage);
    pages::decode(
        rt,
        words.code,
        s,
        lent,
        &mut delivered[..words.frame_length()],
    )
}

// Up to E wrong symbols in a word, at the full allowance and at a smaller one; then E + 1 in the last word, or in some.
pub(crate) fn all(rt: &impl Print, words: Words) -> io::Result<()> {
    let code = words.code;
    let e = code.strength;
    let mut information = [0u8; 2040];
    let mut sent = [170u8; 2040];
    pages::fill(e + code.depth + code.fill, &mut information);
    let frame = &information[..words.frame_length()];
    let block = &mut sent[..words.block_length()];
    pages::encode(rt, code, frame, block)?;
    for (damage, s) in [
        (Damage::None, 0),
        (Damage::Mixed, e),
        (Damage::Mixed, 6),
        (Damage::Full, e),
        (Damage::Full, e - 1),
        (Damage::LastPast, e),
        (Damage::SomePast, e),
    ] {
        damaged(rt, words, damage, s, block)?;
    }
    Ok(())
}
