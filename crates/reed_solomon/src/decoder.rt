// Decoding of a whole block: one pass over it gives each word the checks that its information symbols would have; by what those received differ
// from them its errors are found; and the frame is written only once the last word is known to be good.
ghost use Rattle.std.specs.Prelude.{◌≡◌, ◌≤◌, ◌<◌, ℕ, length, is_some, unwrap_or, MatchResult};
ghost use Rattle.refusals.specs.declared.WordRefusal.TheVariants.{NoCodeword};
ghost use Rattle.reed_solomon.specs.Outcome.{answer_of, counts_of, total_of, LowestLost, DecodeOutcome};
ghost use Rattle.reed_solomon.specs.DecoderWorking.{CodedBy, WordRows, WordRepaired, Sofar};

use crate::Decoding;
use crate::given::Given;
use octets::copy_front;
use refusals::{Code, WordRefusal};

impl Given<'_> {
    // Word w repaired into its places of the frame, and how many of its symbols differ, if it has a codeword.
    fn repair_word(&self, w: usize, row: &[u8; 32], frame: &mut [u8]) -> Option<u32>
        requires { (2040 ≤ length frame.old) × (w < self.now.depth) × CodedBy self.now.strength self.now.depth self.now.fill self.now.block.now w row.now }
        ensures { WordRepaired self.now.strength self.now.depth self.now.fill self.now.allowance self.now.block.now w frame.old (is_some result) (unwrap_or result 0) frame.new }
    {
        let found = self.word_errors(w, row)?;
        let information = 255 - self.fill - 2 * self.strength as usize;
        self.put_repaired(w, &found.errors, information, frame);
        Some(found.count)
    }

    // All words repaired into the frame, or the lowest that is lost.
    fn repair_words(&self, rows: &[[u8; 32]; 8], frame: &mut [u8]) -> Result<Decoding, WordRefusal>
        requires { (2040 ≤ length frame.old) × WordRows self.now.strength self.now.depth self.now.fill self.now.block.now rows.now }
        ensures size { length frame.new ≡ length frame.old }
        ensures words { MatchResult result (λ d. Sofar self.now.strength self.now.depth self.now.fill self.now.allowance self.now.block.now frame.new d.counts d.total self.now.depth) (λ r. (w : ℕ) × (r ≡ NoCodeword w) × LowestLost self.now.strength self.now.depth self.now.fill self.now.allowance self.now.block.now w) }
    {
        let mut counts = [0u8; 8];
        let mut total: u32 = 0;
        // By the word's number, which the refusal names, and by which its row and its count have their places.
        for w in 0..self.depth {
            let Some(count) = self.repair_word(w, &rows[w], frame) else {
                return Err(WordRefusal::NoCodeword(w as u32));
            };
            counts[w] = count as u8;
            total += count;
        }
        Ok(Decoding { total, counts })
    }
}

// A block that is coded as it stands needs no look at its words one by one.
pub fn decode(code: Code, s: u32, block: &[u8], frame: &mut [u8]) -> Result<Decoding, WordRefusal>
    ensures { DecodeOutcome code.strength code.depth code.fill s block.now frame.old (answer_of result) (counts_of result) (total_of result) frame.new }
{
    let n = frame.len();
    refusals::decode_parameters(code, s, block.len(), n)?;
    let given = Given {
        strength: code.strength,
        depth: code.depth as usize,
        fill: code.fill as usize,
        allowance: s,
        block,
    };
    let rows = given.front_rows(n);
    if given.has_checks(&rows, n) {
        copy_front(&block[..n], frame);
        return Ok(Decoding {
            total: 0,
            counts: [0; 8],
        });
    }
    let mut repaired = [0u8; 2040];
    let decoding = given.repair_words(&rows, &mut repaired)?;
    copy_front(&repaired[..n], frame);
    Ok(decoding)
}
