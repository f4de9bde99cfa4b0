// The checks of parameters and lengths that the calls on words share, and encode and decode themselves, at every limit and one past it.
ghost use Rattle.std.specs.Prelude.{◌≤◌};

use crate::code;
use pages::fill;
use refusals::{Code, verdict_number};
use std::io;

// Encode into a block that holds 170 before, and decode of what then stands there; after a refusal that is the 170s.
fn there_and_back(rt: &impl Print, code: Code, s: u32, frame: usize, block: usize) -> io::Result<()>
    requires { (frame ≤ 2048) × (block ≤ 2304) }
{
    let mut given = [0u8; 2048];
    let mut coded = [170u8; 2304];
    let mut delivered = [170u8; 2048];
    let lent = &mut coded[..block];
    fill(5, &mut given);
    pages::encode(rt, code, &given[..frame], lent)?;
    pages::decode(rt, code, s, lent, &mut delivered[..frame])
}

// Encode and transmit, decode and receive, with lengths that are right but for what is added to them.
fn all_four(
    rt: &impl Print,
    code: Code,
    s: u32,
    tolerance: u32,
    frame: usize,
    block: usize,
) -> io::Result<()> {
    let encode = verdict_number(refusals::encode_parameters(code, frame, block));
    let transmit = verdict_number(refusals::transmit_parameters(code, frame, block));
    let decode = verdict_number(refusals::decode_parameters(code, s, block, frame));
    let receive = verdict_number(refusals::receive_parameters(code, s, tolerance, block, frame));
    println!(rt; "limits {encode} {transmit} {decode} {receive}")?;
    if frame <= 2048 && block <= 2304 {
        there_and_back(rt, code, s, frame, block)?;
    }
    Ok(())
}

// A code, the allowance, the tolerance, and the lengths of frame and block.
static CASES: [(u32, u32, u32, u32, u32, usize, usize); 43] = [
    // Strengths.
    (0, 1, 0, 0, 0, 255, 255),
    (7, 1, 0, 0, 0, 241, 255),
    (8, 1, 0, 8, 3, 239, 255),
    (9, 1, 0, 0, 0, 237, 255),
    (15, 1, 0, 0, 0, 225, 255),
    (16, 1, 0, 16, 3, 223, 255),
    (17, 1, 0, 0, 0, 221, 255),
    (u32::MAX, 0, 300, 400, 9, 0, 0),
    // Depths.
    (16, 0, 0, 0, 0, 0, 0),
    (16, 2, 0, 0, 0, 446, 510),
    (16, 3, 0, 0, 0, 669, 765),
    (16, 4, 0, 0, 0, 892, 1020),
    (16, 5, 0, 0, 0, 1115, 1275),
    (16, 6, 0, 0, 0, 1338, 1530),
    (16, 7, 0, 0, 0, 1561, 1785),
    (16, 8, 0, 0, 0, 1784, 2040),
    (16, 9, 0, 0, 0, 2007, 2295),
    (16, u32::MAX, 300, 400, 9, 0, 0),
    // Fills.
    (16, 1, 222, 16, 3, 1, 33),
    (16, 1, 223, 16, 3, 0, 32),
    (8, 1, 238, 8, 3, 1, 17),
    (8, 1, 239, 8, 3, 0, 16),
    (8, 8, 238, 8, 3, 8, 136),
    (8, 1, u32::MAX, 400, 9, 0, 0),
    // Allowance and tolerance, alone and before wrong lengths; marked blocks are four octets longer.
    (16, 1, 222, 17, 3, 1, 33),
    (8, 1, 238, 9, 3, 1, 17),
    (16, 1, 222, 17, 4, 1, 37),
    (16, 1, 222, 16, 4, 0, 0),
    (16, 1, 222, 16, 3, 1, 37),
    (16, 1, 222, u32::MAX, u32::MAX, 9, 9),
    // Lengths.
    (16, 5, 0, 16, 3, 1114, 1275),
    (16, 5, 0, 16, 3, 1116, 1275),
    (16, 5, 0, 16, 3, 1115, 1274),
    (16, 5, 0, 16, 3, 1115, 1276),
    (16, 5, 0, 16, 3, 1115, 1279),
    (16, 5, 0, 16, 3, 1114, 1278),
    (16, 5, 0, 16, 3, 0, 0),
    // Two faults at once: the one that comes first in the order is the answer.
    (7, 6, 0, 0, 0, 1, 33),
    (16, 6, 223, 16, 3, 1, 33),
    (16, 1, 223, 17, 3, 1, 33),
    (16, 1, 222, 17, 3, 1, 32),
    (16, 1, 222, 17, 3, 2, 33),
    (16, 1, 222, 16, 3, 2, 32),
];

pub(crate) fn all(rt: &impl Print) -> io::Result<()> {
    for &(strength, depth, fill, s, tolerance, frame, block) in &CASES {
        all_four(rt, code(strength, depth, fill), s, tolerance, frame, block)?;
    }
    Ok(())
}
