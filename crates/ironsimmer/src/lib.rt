// The C interface: each call hands its arguments to the call beneath and gives that call's answer as one number, which has the refusal's
// number in its lowest eight bits, 0 if accepted, and above them the refusal's value. include/ironsimmer.h says the same to C.
// Strength, depth, fill and allowance come one by one, as C gives them.
#![tactic(auto)]

mod coder;
mod codes;
mod portions;
mod reports;

ghost use Rattle.randomiser.specs.Outcome.{NextOutcome};
ghost use Rattle.ironsimmer.specs.Exported.{EncodeCall, PortionCall, CloseCall, DecodeCall, SalvageCall, RandomiseCall, MarkerCall, SearchCall, ConvolveCall, ConvolveCloseCall, LikeliestCall, TransmitCall, ReceiveCall};

use codes::code_of;
use refusals::Code;

#[unsafe(no_mangle)]
pub extern "C" fn ironsimmer_encode(
    e: u32,
    depth: u32,
    fill: u32,
    frame: &[u8],
    block: &mut [u8],
) -> u64
    ensures { EncodeCall e depth fill frame.now block.old result block.new }
{
    let code = Code {
        strength: e,
        depth,
        fill,
    };
    refusals::verdict_number(encoding::encode(code, frame, block))
}

#[unsafe(no_mangle)]
pub extern "C" fn ironsimmer_encode_portion(
    e: u32,
    depth: u32,
    fill: u32,
    progress: &mut [u32; 2],
    rows: &mut [[u8; 32]; 8],
    portion: &[u8],
    written: &mut [u8],
) -> u64
    ensures { PortionCall e depth fill progress.old rows.old portion.now written.old result progress.new rows.new written.new }
{
    let code = Code {
        strength: e,
        depth,
        fill,
    };
    let mut state = portions::state_of(progress, rows);
    let verdict = state.portion(code, portion, written);
    portions::put(verdict, state, progress, rows)
}

#[unsafe(no_mangle)]
pub extern "C" fn ironsimmer_encode_close(
    e: u32,
    depth: u32,
    fill: u32,
    progress: &mut [u32; 2],
    rows: &mut [[u8; 32]; 8],
    checks: &mut [u8],
) -> u64
    ensures { CloseCall e depth fill progress.old rows.old checks.old result progress.new rows.new checks.new }
{
    let code = Code {
        strength: e,
        depth,
        fill,
    };
    let mut state = portions::state_of(progress, rows);
    let verdict = state.close(code, checks);
    portions::put(verdict, state, progress, rows)
}

#[unsafe(no_mangle)]
pub extern "C" fn ironsimmer_decode(
    e: u32,
    depth: u32,
    fill: u32,
    s: u32,
    block: &[u8],
    frame: &mut [u8],
    counts: &mut [u32; 9],
) -> u64
    ensures { DecodeCall e depth fill s block.now frame.old counts.old result frame.new counts.new }
{
    let code = Code {
        strength: e,
        depth,
        fill,
    };
    match reed_solomon::decode(code, s, block, frame) {
        Ok(decoding) => {
            *counts = reports::report_of(&decoding.counts, decoding.total);
            0
        }
        Err(refusal) => code_of(refusal),
    }
}

#[unsafe(no_mangle)]
pub extern "C" fn ironsimmer_salvage(
    e: u32,
    depth: u32,
    fill: u32,
    s: u32,
    block: &[u8],
    frame: &mut [u8],
    list: &mut [u8],
    words: &mut [u32; 17],
) -> u64
    ensures { SalvageCall e depth fill s block.now frame.old list.old words.old result frame.new list.new words.new }
{
    let code = Code {
        strength: e,
        depth,
        fill,
    };
    match reed_solomon::salvage(code, s, block, frame, list) {
        Ok(report) => {
            *words = reports::salvage_of(&report.marks, &report.counts, report.entries);
            0
        }
        Err(parameter) => code_of(parameter),
    }
}

#[unsafe(no_mangle)]
pub extern "C" fn ironsimmer_randomise(block: &mut [u8]) -> u64
    ensures { RandomiseCall block.old result block.new }
{
    refusals::verdict_number(randomiser::randomise(block))
}

#[unsafe(no_mangle)]
pub extern "C" fn ironsimmer_sequence(register: &mut u8) -> u8
    ensures { NextOutcome register.old result register.new }
{
    randomiser::next_bits(register)
}

#[unsafe(no_mangle)]
pub extern "C" fn ironsimmer_marker(tolerance: u32, octets: &[u8], found: &mut [u32; 2]) -> u64
    ensures { MarkerCall tolerance octets.now found.old result found.new }
{
    match marker::test(tolerance, octets) {
        Ok(near) => {
            *found = [codes::form_number(near.form), near.wrong];
            0
        }
        Err(refusal) => code_of(refusal),
    }
}

#[unsafe(no_mangle)]
pub extern "C" fn ironsimmer_search(
    tolerance: u32,
    stream: &[u8],
    start: u64,
    budget: u64,
    found: &mut [u64; 5],
) -> u64
    ensures { SearchCall tolerance stream.now start budget found.old result found.new }
{
    reports::put_search(marker::search(tolerance, stream, start, budget), found)
}

#[unsafe(no_mangle)]
pub extern "C" fn ironsimmer_convolve(
    rate: u32,
    state: &mut [u8; 4],
    data: &[u8],
    symbols: &mut [u8],
    count: &mut u32,
) -> u64
    ensures { ConvolveCall rate state.old «data».now symbols.old count.old result state.new symbols.new count.new }
{
    let mut lent = coder::state_of(state);
    let answer = convolution::convolve(rate, &mut lent, data, symbols);
    coder::put(answer, lent, state, count)
}

#[unsafe(no_mangle)]
pub extern "C" fn ironsimmer_convolve_close(
    rate: u32,
    state: &[u8; 4],
    symbols: &mut [u8],
    count: &mut u32,
) -> u64
    ensures { ConvolveCloseCall rate state.now symbols.old count.old result symbols.new count.new }
{
    let lent = coder::state_of(state);
    coder::put_count(convolution::close(rate, lent, symbols), count)
}

#[unsafe(no_mangle)]
pub extern "C" fn ironsimmer_likeliest(
    register: u32,
    symbols: &[u8],
    data: &mut [u8],
    found: &mut [u32; 2],
) -> u64
    ensures { LikeliestCall register symbols.now «data».old found.old result «data».new found.new }
{
    match viterbi::likeliest(register, symbols, data) {
        Ok(likeliest) => {
            *found = [likeliest.places, likeliest.register];
            0
        }
        Err(parameter) => code_of(parameter),
    }
}

#[unsafe(no_mangle)]
pub extern "C" fn ironsimmer_transmit(
    e: u32,
    depth: u32,
    fill: u32,
    randomised: u32,
    frame: &[u8],
    marked: &mut [u8],
) -> u64
    ensures { TransmitCall e depth fill randomised frame.now marked.old result marked.new }
{
    let code = Code {
        strength: e,
        depth,
        fill,
    };
    refusals::verdict_number(chain::transmit(code, randomised != 0, frame, marked))
}

#[unsafe(no_mangle)]
pub extern "C" fn ironsimmer_receive(
    e: u32,
    depth: u32,
    fill: u32,
    s: u32,
    tolerance: u32,
    randomised: u32,
    marked: &[u8],
    frame: &mut [u8],
    counts: &mut [u32; 10],
) -> u64
    ensures { ReceiveCall e depth fill s tolerance randomised marked.now frame.old counts.old result frame.new counts.new }
{
    let code = Code {
        strength: e,
        depth,
        fill,
    };
    match chain::receive(code, s, tolerance, randomised != 0, marked, frame) {
        Ok(reception) => {
            let inverted = u32::from(reception.inverted);
            *counts = reports::reception_of(&reception.counts, reception.total, inverted);
            0
        }
        Err(stage) => code_of(stage),
    }
}
