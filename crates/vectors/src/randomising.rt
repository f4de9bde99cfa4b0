// The sequence, and the randomiser at its limits.
use pages::{Buffer, fill};
use randomiser::{Register, next_bits, randomise};
use refusals::verdict_number;
use std::io;

// The first 40 bits, as source 000 prints them.
fn first_bits(rt: &impl Print) -> io::Result<()> {
    let mut register = Register { bits: 0xFF };
    print!(rt; "sequence")?;
    for _ in 0..5 {
        print!(rt; " {:08b}", next_bits(&mut register.bits))?;
    }
    println!(rt; "")
}

// Each register content: the octet it gives, and the content it is left with.
fn contents(rt: &impl Print) -> io::Result<()> {
    for bits in 0..=255u8 {
        let mut register = Register { bits };
        let octet = next_bits(&mut register.bits);
        println!(rt; "register {octet:02x} {:02x}", register.bits)?;
    }
    Ok(())
}

fn block(rt: &impl Print, octets: &mut [u8]) -> io::Result<()> {
    fill(7, octets);
    let once = verdict_number(randomise(octets));
    print!(rt; "randomise {once}{}", Buffer(octets))?;
    let twice = verdict_number(randomise(octets));
    println!(rt; " twice {twice}{}", Buffer(octets))
}

pub(crate) fn all(rt: &impl Print) -> io::Result<()> {
    first_bits(rt)?;
    contents(rt)?;
    let mut octets = [0u8; 2041];
    for n in [0usize, 1, 5, 300, 2040, 2041] {
        block(rt, &mut octets[..n])?;
    }
    Ok(())
}
