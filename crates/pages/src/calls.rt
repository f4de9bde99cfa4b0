// Encode and decode, each with the line that its outcome makes. The line itself is Display's, of which no clause speaks.
ghost use Rattle.pages.specs.Calls.{EncodeLeaves, DecodeLeaves};

use crate::{Buffer, Coded, Decoded};
use refusals::{Code, verdict_number};
use std::io;

pub fn encode(rt: &impl Print, code: Code, frame: &[u8], block: &mut [u8]) -> io::Result<()>
    ensures { EncodeLeaves code frame.now block.old block.new }
{
    let verdict = encoding::encode(code, frame, block);
    println!(rt;
        "encode{} {}{}",
        Coded(code),
        verdict_number(verdict),
        Buffer(block)
    )
}

pub fn decode(rt: &impl Print, code: Code, s: u32, block: &[u8], frame: &mut [u8]) -> io::Result<()>
    ensures { DecodeLeaves code s block.now frame.old frame.new }
{
    let decoded = reed_solomon::decode(code, s, block, frame);
    println!(rt;
        "decode{} {s}{}{}",
        Coded(code),
        Decoded(decoded),
        Buffer(frame)
    )
}
