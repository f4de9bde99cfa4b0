// Salvage of a block: each word is repaired if it can be, and otherwise left as received.
ghost use Rattle.std.specs.Prelude.{◌≡◌, ◌≤◌, ◌<◌, length, is_some, unwrap_or};
ghost use Rattle.std.specs.Int.{from_bool};
ghost use Rattle.refusals.specs.Numbers.{verdict_of};
ghost use Rattle.reed_solomon.specs.DecoderWorking.{CodedBy, WordRows};
ghost use Rattle.reed_solomon.specs.Salvaging.{marks_of, repairs_of, entries_of, SalvageOutcome};
ghost use Rattle.reed_solomon.specs.SalvageWorking.{WordPut, WordsPut, MarksSet};

use crate::SalvageReport;
use crate::given::Given;
use crate::listing::put_changes;
use octets::copy_front;
use refusals::{Code, Parameter};

// Which words are repaired, and their counts: two lists, as the report and its specification have them.
#[derive(Clone, Copy)]
struct WordsSalvage {
    marks: [u8; 8],
    counts: [u8; 8],
}

impl Given<'_> {
    // Word w with its errors added, checks and all, and its count if it has a codeword: without one it has no errors, and so stays as received.
    fn salvage_word(&self, w: usize, row: &[u8; 32], mended: &mut [u8]) -> Option<u8>
        requires { (2040 ≤ length mended.old) × (w < self.now.depth) × CodedBy self.now.strength self.now.depth self.now.fill self.now.block.now w row.now }
        ensures { WordPut self.now.strength self.now.depth self.now.fill self.now.allowance self.now.block.now w mended.old (from_bool (is_some result)) (unwrap_or result 0) mended.new }
    {
        let sent = 255 - self.fill;
        match self.word_errors(w, row) {
            Some(found) => {
                self.put_repaired(w, &found.errors, sent, mended);
                Some(found.count as u8)
            }
            None => {
                self.put_repaired(w, &[0; 255], sent, mended);
                None
            }
        }
    }

    fn salvage_words(&self, rows: &[[u8; 32]; 8], mended: &mut [u8]) -> WordsSalvage
        requires { (2040 ≤ length mended.old) × WordRows self.now.strength self.now.depth self.now.fill self.now.block.now rows.now }
        ensures { WordsPut self.now.strength self.now.depth self.now.fill self.now.allowance self.now.block.now self.now.depth result.marks result.counts mended.new × (length mended.new ≡ length mended.old) }
    {
        let mut marks = [0u8; 8];
        let mut counts = [0u8; 8];
        // By the word's number, by which its row, its mark and its count have their places.
        for w in 0..self.depth {
            let count = self.salvage_word(w, &rows[w], mended);
            marks[w] = u8::from(count.is_some());
            counts[w] = count.unwrap_or(0);
        }
        WordsSalvage { marks, counts }
    }
}

fn all_marked(depth: usize) -> [u8; 8]
    requires { depth ≤ 8 }
    ensures { MarksSet depth result }
{
    let mut marks = [0u8; 8];
    marks[..depth].fill(1);
    marks
}

// The frame is the front of the repaired block, whose words are interleaved in the same way. The first steps are those of `decode`, which
// ends in a refusal of another type.
pub fn salvage(
    code: Code,
    s: u32,
    block: &[u8],
    frame: &mut [u8],
    list: &mut [u8],
) -> Result<SalvageReport, Parameter>
    ensures { SalvageOutcome code.strength code.depth code.fill s block.now frame.old list.old (verdict_of result) (marks_of result) (repairs_of result) (entries_of result) frame.new list.new }
{
    let n = frame.len();
    refusals::salvage_parameters(code, s, block.len(), n, list.len())?;
    let given = Given {
        strength: code.strength,
        depth: code.depth as usize,
        fill: code.fill as usize,
        allowance: s,
        block,
    };
    let rows = given.front_rows(n);
    if given.has_checks(&rows, n) {
        copy_front(&block[..n], frame);
        // Every word is its own codeword: nothing differs, and nothing is listed.
        let marks = all_marked(given.depth);
        return Ok(SalvageReport {
            marks,
            counts: [0; 8],
            entries: 0,
        });
    }
    let mut mended = [0u8; 2040];
    let WordsSalvage { marks, counts } = given.salvage_words(&rows, &mut mended);
    copy_front(&mended[..n], frame);
    let entries = put_changes(block, &mended[..block.len()], list);
    Ok(SalvageReport {
        marks,
        counts,
        entries,
    })
}
