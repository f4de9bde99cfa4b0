// The marker test and the search.
use marker::{Form, Searched};
use pages::fill;
use refusals::{MarkerRefusal, Refusal};
use std::io;

// The true marker is form 1, its complement 2.
fn form_number(form: Form) -> u8 {
    1 + form as u8
}

fn tested(rt: &impl Print, tolerance: u32, octets: &[u8]) -> io::Result<()> {
    match marker::test(tolerance, octets) {
        Ok(near) => println!(rt; "marker 0 {} {}", form_number(near.form), near.wrong),
        Err(MarkerRefusal::Parameters(p)) => println!(rt; "marker {}", p.number()),
        Err(MarkerRefusal::WrongBits(wrong)) => println!(rt; "marker 9 {wrong}"),
    }
}

// No to five wrong bits of either form, zeros and ones, which fit neither.
static MARKERS: [[u8; 4]; 14] = [
    [0x1A, 0xCF, 0xFC, 0x1D],
    [0x9A, 0xCF, 0xFC, 0x1D],
    [0x9A, 0xCF, 0xFC, 0x1C],
    [0x9A, 0xDF, 0xFC, 0x1C],
    [0x9A, 0xDF, 0xF4, 0x1C],
    [0x98, 0xDF, 0xF4, 0x1C],
    [0x00, 0x00, 0x00, 0x00],
    [0xFF, 0xFF, 0xFF, 0xFF],
    [0xE5, 0x30, 0x03, 0xE2],
    [0x65, 0x30, 0x03, 0xE2],
    [0x65, 0x30, 0x03, 0xE3],
    [0x65, 0x20, 0x03, 0xE3],
    [0x65, 0x20, 0x0B, 0xE3],
    [0x67, 0x20, 0x0B, 0xE3],
];

// At each tolerance, one past it and the largest number; and wrong lengths.
fn tests_at(rt: &impl Print, tolerance: u32) -> io::Result<()> {
    for octets in &MARKERS {
        tested(rt, tolerance, octets)?;
    }
    tested(rt, tolerance, b"\x1A\xCF\xFC")?;
    tested(rt, tolerance, b"\x1A\xCF\xFC\x1D\x00")?;
    tested(rt, tolerance, b"")
}

fn searched(
    rt: &impl Print,
    tolerance: u32,
    stream: &[u8],
    start: u64,
    budget: u64,
) -> io::Result<()> {
    match marker::search(tolerance, stream, start, budget) {
        Ok(
            Searched::Found {
                place,
                form,
                wrong,
                looked,
            },
        ) => println!(rt;
            "search found {place} {wrong} {looked} {}",
            form_number(form)
        ),
        Ok(Searched::Absent { looked }) => println!(rt; "search absent {looked}"),
        Ok(Searched::Spent { place, looked }) => println!(rt; "search spent {place} {looked}"),
        Err(p) => println!(rt; "search refused {}", p.number()),
    }
}

// A short stream with the marker three bits in, and once more, with three wrong bits, at bit 80.
fn short_stream(rt: &impl Print, tolerance: u32) -> io::Result<()> {
    let stream = b"\x43\x59\xFF\x83\xB5\x55\x55\x55\x55\x55\x1A\xCF\xFF\x1C\x00";
    for (start, budget) in [
        (0, 0),
        (0, 3),
        (0, 4),
        (3, 1),
        (4, 75),
        (4, 76),
        (4, 77),
        (4, 84),
        (4, 85),
        (81, 7),
        (81, 8),
        (88, 0),
        (89, 0),
        (120, u64::MAX),
        (121, u64::MAX),
        (u64::MAX, 0),
    ] {
        searched(rt, tolerance, stream, start, budget)?;
    }
    Ok(())
}

// One form at bit 8, with three wrong bits, then the other at bit 40, the last place.
fn two_forms(rt: &impl Print, tolerance: u32, stream: &[u8]) -> io::Result<()> {
    for (start, budget) in [
        (0, 8),
        (0, 9),
        (0, 40),
        (0, 41),
        (0, u64::MAX),
        (8, 1),
        (9, 31),
        (9, 32),
        (41, 1),
    ] {
        searched(rt, tolerance, stream, start, budget)?;
    }
    Ok(())
}

// The complement first, then the true marker first.
fn either_first(rt: &impl Print, tolerance: u32) -> io::Result<()> {
    two_forms(rt, tolerance, b"\x55\x65\x20\x03\xE3\x1A\xCF\xFC\x1D")?;
    two_forms(rt, tolerance, b"\xAA\x9A\xDF\xFC\x1C\xE5\x30\x03\xE2")
}

// Too short for a place, exactly one place, and the two faults that can meet.
fn small_streams(rt: &impl Print) -> io::Result<()> {
    let marker = b"\x1A\xCF\xFC\x1D";
    searched(rt, 3, b"", 0, 5)?;
    searched(rt, 3, b"", 1, 5)?;
    searched(rt, 3, b"\x1A\xCF\xFC", 0, 5)?;
    searched(rt, 0, marker, 0, 1)?;
    searched(rt, 0, marker, 0, 0)?;
    searched(rt, 0, marker, 1, 1)?;
    searched(rt, 4, marker, 33, 1)?;
    searched(rt, u32::MAX, b"", 0, 0)
}

fn longest(rt: &impl Print, stream: &[u8]) -> io::Result<()> {
    for (tolerance, start, budget) in [
        (0, 0, u64::MAX),
        (0, 0, 524256),
        (0, 0, 524257),
        (3, 100000, 300000),
        (3, 524256, 1),
        (3, 524257, 1),
        (3, 524288, 1),
        (3, 524289, 1),
    ] {
        searched(rt, tolerance, stream, start, budget)?;
    }
    Ok(())
}

// The longest stream, which is all but one octet of what is lent, with these octets at its end.
fn longest_with(rt: &impl Print, stream: &mut [u8], end: &[u8; 4]) -> io::Result<()> {
    if let Some(last) = stream.get_mut(65532..65536) {
        last.copy_from_slice(end);
    }
    if let Some(whole) = stream.get(..65536) {
        longest(rt, whole)?;
    }
    Ok(())
}

// The longest stream, with the marker at its end, then the complement, and one octet more.
fn long_streams(rt: &impl Print) -> io::Result<()> {
    let mut stream = [0u8; 65537];
    fill(11, &mut stream);
    longest_with(rt, &mut stream, b"\x1A\xCF\xFC\x1D")?;
    longest_with(rt, &mut stream, b"\xE5\x30\x03\xE2")?;
    searched(rt, 3, &stream, 0, 1)?;
    searched(rt, 3, &stream, 524297, 1)?;
    searched(rt, 4, &stream, 0, 1)
}

pub(crate) fn all(rt: &impl Print) -> io::Result<()> {
    for tolerance in 0..5 {
        tests_at(rt, tolerance)?;
        short_stream(rt, tolerance)?;
        either_first(rt, tolerance)?;
    }
    tests_at(rt, u32::MAX)?;
    small_streams(rt)?;
    long_streams(rt)
}
