// The octets of each kind of line.
ghost use Rattle.std.specs.Prelude.{◌++◌, ◌+◌, ◌≤◌, length};
ghost use Rattle.report_lines.specs.Lines.{decimal, block_text, line_end};
ghost use Rattle.report_lines.specs.Text.{Holds, LineOutcome, ClosingOutcome};
ghost use Rattle.report_lines.specs.Working.{Room, Added};

use crate::{ReportLine, Text};

// What every line ends with: a word, its number, and the line's end.
fn ended(mut text: Text, word: &[u8], number: u64, end: &[u8]) -> Text
    requires { Room text (length word.now + (20 + length end.now)) }
    ensures { Added text (word.now ++ (decimal number ++ end.now)) result }
{
    text.push(word);
    text.push_number(number);
    text.push(end);
    text
}

fn block_line(block: u64, word: &[u8], number: u64, end: &[u8]) -> Text
    requires { (length word.now ≤ 18) × (length end.now ≤ 10) }
    ensures { Holds result (block_text ++ (decimal block ++ (word.now ++ (decimal number ++ end.now)))) }
{
    let mut text = Text::new();
    text.push(b"block ");
    text.push_number(block);
    ended(text, word, number, end)
}

fn count_line(word: &[u8], number: u64) -> Text
    requires { length word.now ≤ 18 }
    ensures { Holds result (word.now ++ (decimal number ++ line_end)) }
{
    ended(Text::new(), word, number, b"\n")
}

pub fn line(l: ReportLine) -> Text
    ensures { LineOutcome l result }
{
    match l {
        ReportLine::Corrected { block, total } => block_line(block, b": corrected ", total, b"\n"),
        ReportLine::Inverted { block, total } => block_line(
            block,
            b": corrected ",
            total,
            b" inverted\n",
        ),
        ReportLine::Refused { block, number } => block_line(block, b": refused ", number, b"\n"),
        ReportLine::Lost { block, word } => block_line(block, b": refused 10 word ", word, b"\n"),
        ReportLine::Short(octets) => count_line(b"short ", octets),
        ReportLine::End(blocks) => count_line(b"end ", blocks),
    }
}

pub fn closing(left: u64, blocks: u64) -> Text
    ensures { ClosingOutcome left blocks result }
{
    if left == 0 {
        return count_line(b"end ", blocks);
    }
    let short = count_line(b"short ", left);
    ended(short, b"end ", blocks, b"\n")
}
