// Table B-1 of source 004 in both directions, inverses and products.
use std::fmt::Display;
use std::io;

// An element, its line octet, and what that is turned back into.
fn row(rt: &impl Print, power: impl Display + Drop, element: u8) -> io::Result<()> {
    let line = field::to_line(element);
    let again = field::to_conventional(line);
    println!(rt; "power {power} {element:02x} {line:02x} {again:02x}")
}

fn table(rt: &impl Print) -> io::Result<()> {
    row(rt, '*', 0)?;
    let mut element = 1u8;
    for power in 0..255u32 {
        row(rt, power, element)?;
        element = field::mul(element, 2);
    }
    Ok(())
}

fn inverses(rt: &impl Print) -> io::Result<()> {
    for a in 0..=255u8 {
        let inverse = field::inverse(a);
        let one = field::mul(a, inverse);
        let product = field::mul(inverse, 0xFF);
        println!(rt; "inverse {a:02x} {inverse:02x} {one:02x} {product:02x}")?;
    }
    Ok(())
}

pub(crate) fn all(rt: &impl Print) -> io::Result<()> {
    table(rt)?;
    inverses(rt)
}
