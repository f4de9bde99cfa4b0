// The report program: it reads marked, randomised blocks and writes what the library says of each.
#![tactic(auto)]

ghost use Rattle.std.specs.Prelude.{◌≡◌, ◌⊎◌, ◌≤◌, ◌<◌, length, take, IfOk, OnOk};
ghost use Rattle.std.specs.Io.KnownBytes.{Consumes, IsAtEnd};
ghost use Rattle.reporting.specs.Working.{EndTold, CompleteTold, PieceReported, PieceCut};
ghost use Rattle.reporting.specs.Reported.{ReportOutcome, OnlyReported};

use std::io;
use std::io::{Eprint, Read, Write};

// The octets of a marked block.
const BLOCK: usize = 1279;

const READ_FAILED: &str = "report: a read of the input failed";

const WRITE_FAILED: &str = "report: a write of the report failed";

// A failure is told on standard error; where that fails too, nobody is left to tell.
fn told<T>(rt: &impl Eprint, outcome: io::Result<T>, failure: &str) -> io::Result<T>
    ensures { result ≡ outcome }
{
    if outcome.is_err() {
        let _ = rt.eprintln(failure);
    }
    outcome
}

// One read may give less than there is room for. Only the end of the input leaves a piece short.
fn read_piece<R: Read>(input: &mut R, octets: &mut [u8]) -> io::Result<usize>
    ensures within { IfOk result (λ n. n ≤ length octets.new) }
    ensures read { IfOk result (λ n. Consumes (R.remaining input.old) (R.remaining input.new) (take n octets.new)) }
    ensures end { IfOk result (λ n. n < length octets.new → IsAtEnd (R.remaining input.new)) }
{
    let mut filled = 0;
    while filled < octets.len() {
        let more = input.read(&mut octets[filled..])?;
        if more == 0 {
            break;
        }
        filled += more;
    }
    Ok(filled)
}

// After a short piece one more read tells the input's end from a gap in it, behind which more comes.
fn ended<R: Read>(input: &mut R) -> io::Result<bool>
    ensures { IfOk result (λ last. EndTold last (R.remaining input.old) (R.remaining input.new)) }
{
    let mut more = [0u8; 1];
    Ok(input.read(&mut more)? == 0)
}

// A gap is told as a failed read is, and no line is written for the piece before it.
fn complete<R: Read>(rt: &impl Eprint, input: &mut R, piece: usize) -> io::Result<bool>
    requires { piece ≤ 1279 }
    ensures { IfOk result (λ complete. CompleteTold piece complete (R.remaining input.old) (R.remaining input.new)) }
{
    if piece == BLOCK {
        return Ok(true);
    }
    let last = told(rt, ended(input), READ_FAILED)?;
    if !last {
        let _ = rt.eprintln(READ_FAILED);
    }
    Ok(last)
}

// How many octets the piece has of which the text was written; of one before a gap none is.
fn report_piece<R: Read, W: Write>(
    rt: &impl Eprint,
    input: &mut R,
    output: &mut W,
    block: u64,
) -> io::Result<usize>
    ensures { IfOk result (λ n.
        PieceReported block n (R.remaining input.old) (R.remaining input.new) (W.contents output.old) (W.contents output.new)
        ⊎ PieceCut n (R.remaining input.old) (W.contents output.old) (W.contents output.new)) }
{
    let mut octets = [0u8; BLOCK];
    let read = read_piece(input, &mut octets);
    let n = told(rt, read, READ_FAILED)?;
    if !complete(rt, input, n)? {
        return Ok(0);
    }
    let text = report_pieces::piece(block, &octets[..n]);
    told(rt, output.write_all(&text.octets[..text.len]), WRITE_FAILED)?;
    Ok(n)
}

// No clause can say what standard input gives or standard output takes: this one speaks of readers and writers that say what they hold, and the same code serves both.
// No input reaches the range's end: it would have 2^64 blocks.
pub fn report<R: Read, W: Write>(rt: &impl Eprint, input: &mut R, output: &mut W) -> io::Result<()>
    ensures known { OnOk result (ReportOutcome (R.remaining input.old) (R.remaining input.new) (W.contents output.old) (W.contents output.new)) }
    ensures any { OnOk result (OnlyReported (W.contents output.old) (W.contents output.new)) }
{
    for block in 0..u64::MAX {
        if report_piece(rt, input, output, block)? < BLOCK {
            return Ok(());
        }
    }
    Ok(())
}
