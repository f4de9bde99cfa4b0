// Encode in portions, salvage, transmit, receive, convolve and its decoding, each with the line that its outcome makes.
use crate::answers::{Coder, Convolved, Received, Underway};
use convolution::State;
use frame_portions::Progress;
use pages::{Buffer, Coded, Numbers, Octets};
use reed_solomon::SalvageReport;
use refusals::{Code, Refusal, verdict_number};
use std::io;

// What is printed of a refusal: a line has a number and a report, as C has them.
const NOTHING_SALVAGED: SalvageReport = SalvageReport {
    marks: [0; 8],
    counts: [0; 8],
    entries: 0,
};

// At the end the octets of the entries, and what stands behind them.
pub(crate) fn salvage(
    rt: &impl Print,
    code: Code,
    s: u32,
    block: &[u8],
    frame: &mut [u8],
    list: &mut [u8],
) -> io::Result<()> {
    let answer = reed_solomon::salvage(code, s, block, frame, list);
    let (number, report) = match answer {
        Ok(report) => (0, report),
        Err(p) => (p.number(), NOTHING_SALVAGED),
    };
    let (entries, rest) = list.split_at((4 * report.entries as usize).min(list.len()));
    print!(rt; "salvage{} {s} {number}", Coded(code))?;
    print!(rt; "{}{}", Numbers(&report.marks), Numbers(&report.counts))?;
    println!(rt;
        " {}{}{}{}",
        report.entries,
        Buffer(frame),
        Octets(entries),
        Buffer(rest)
    )
}

pub(crate) fn transmit(
    rt: &impl Print,
    code: Code,
    randomised: bool,
    frame: &[u8],
    marked: &mut [u8],
) -> io::Result<()> {
    let verdict = verdict_number(chain::transmit(code, randomised, frame, marked));
    let flag = u8::from(randomised);
    println!(rt;
        "transmit{} {flag} {verdict}{}",
        Coded(code),
        Buffer(marked)
    )
}

pub(crate) fn receive(
    rt: &impl Print,
    code: Code,
    s: u32,
    tolerance: u32,
    randomised: bool,
    marked: &[u8],
    frame: &mut [u8],
) -> io::Result<()> {
    let received = Received(chain::receive(code, s, tolerance, randomised, marked, frame));
    let flag = u8::from(randomised);
    println!(rt;
        "receive{} {s} {tolerance} {flag}{received}{}",
        Coded(code),
        Buffer(frame)
    )
}

pub(crate) fn portion(
    rt: &impl Print,
    code: Code,
    state: &mut Progress,
    symbols: &[u8],
    written: &mut [u8],
) -> io::Result<()> {
    let verdict = verdict_number(state.portion(code, symbols, written));
    println!(rt;
        "portion{} {verdict}{}{}",
        Coded(code),
        Underway(state),
        Buffer(written)
    )
}

pub(crate) fn close(
    rt: &impl Print,
    code: Code,
    state: &mut Progress,
    checks: &mut [u8],
) -> io::Result<()> {
    let verdict = verdict_number(state.close(code, checks));
    println!(rt;
        "close{} {verdict}{}{}",
        Coded(code),
        Underway(state),
        Buffer(checks)
    )
}

pub(crate) fn convolve(
    rt: &impl Print,
    rate: u32,
    state: &mut State,
    octets: &[u8],
    symbols: &mut [u8],
) -> io::Result<()> {
    let convolved = Convolved(convolution::convolve(rate, state, octets, symbols));
    println!(rt;
        "convolve {rate}{convolved}{}{}",
        Coder(*state),
        Buffer(symbols)
    )
}

pub(crate) fn convolve_close(
    rt: &impl Print,
    rate: u32,
    state: State,
    symbols: &mut [u8],
) -> io::Result<()> {
    let convolved = Convolved(convolution::close(rate, state, symbols));
    println!(rt; "convolve-close {rate}{convolved}{}", Buffer(symbols))
}

// The register to carry on from is the one reached, or after a refusal the given one.
pub(crate) fn likeliest(
    rt: &impl Print,
    register: u32,
    received: &[u8],
    found: &mut [u8],
) -> io::Result<u32> {
    print!(rt; "likeliest {register}")?;
    match viterbi::likeliest(register, received, found) {
        Ok(likeliest) => {
            let reached = likeliest.register;
            println!(rt; " 0 {} {reached}{}", likeliest.places, Buffer(found))?;
            Ok(reached)
        }
        Err(p) => {
            println!(rt; " {}{}", p.number(), Buffer(found))?;
            Ok(register)
        }
    }
}
