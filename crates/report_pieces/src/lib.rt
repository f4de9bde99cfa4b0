// What the report writes of each piece of its input: the line of a whole block, or the closing lines.
#![tactic(auto)]

ghost use Rattle.std.specs.Prelude.{◌≡◌};
ghost use Rattle.chain.specs.Outcome.{received_of, received_total, received_inverted};
ghost use Rattle.report_pieces.specs.Pieces.{refused_line, delivered_line, answered_line, BlockReported, PieceOutcome};

use chain::{Reception, Stage};
use refusals::{Code, Refusal, WordRefusal};
use report_lines::{ReportLine, Text};

// The code of the report: E 16, I 5, Q 0.
const CODE: Code = Code {
    strength: 16,
    depth: 5,
    fill: 0,
};

fn refused_line(block: u64, stage: Stage) -> ReportLine
    ensures { result ≡ refused_line block stage }
{
    match stage {
        Stage::Word(WordRefusal::NoCodeword(word)) => ReportLine::Lost {
            block,
            word: u64::from(word),
        },
        other => ReportLine::Refused {
            block,
            number: u64::from(other.number()),
        },
    }
}

fn delivered_line(block: u64, total: u32, inverted: bool) -> ReportLine
    ensures { result ≡ delivered_line block total inverted }
{
    let total = u64::from(total);
    if inverted {
        return ReportLine::Inverted { block, total };
    }
    ReportLine::Corrected { block, total }
}

fn answered_line(block: u64, answer: Result<Reception, Stage>) -> ReportLine
    ensures { result ≡ answered_line block (received_of answer) (received_total answer) (received_inverted answer) }
{
    match answer {
        Ok(done) => delivered_line(block, done.total, done.inverted),
        Err(stage) => refused_line(block, stage),
    }
}

fn block_text(block: u64, marked: &[u8]) -> Text
    ensures { BlockReported block marked.now result }
{
    let mut frame = [0u8; 1115];
    let answer = chain::receive(CODE, 16, 3, true, marked, &mut frame);
    report_lines::line(answered_line(block, answer))
}

pub fn piece(block: u64, octets: &[u8]) -> Text
    ensures { PieceOutcome block octets.now result }
{
    let n = octets.len();
    if n < 1279 {
        return report_lines::closing(n as u64, block);
    }
    block_text(block, octets)
}
