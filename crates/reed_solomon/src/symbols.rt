// A block's octets and its words' symbols: symbol k of word w is octet k depth + w.
ghost use Rattle.std.specs.Prelude.{◌≡◌, ◌+◌, ◌-◌, ◌*◌, ◌≤◌, ◌<◌, is_some, length};
ghost use Rattle.words.specs.Outcome.{WordOutcome, count_told, errors_told};
ghost use Rattle.encoding.specs.Blocks.{sent_from};
ghost use Rattle.reed_solomon.specs.DecoderWorking.{CodedBy, Difference, Put};

use crate::given::Given;
use words::WordErrors;

impl Given<'_> {
    // The octet of symbol k of word w.
    fn octet_of(&self, k: usize, w: usize) -> usize
        requires { (k < 255 - self.now.fill) × (w < self.now.depth) }
        ensures { (result ≡ k * self.now.depth + w) × (result < length self.now.block.now) }
    {
        k * self.depth + w
    }

    // What the checks of word w differ by from a row of checks, behind zeros: the word less the codeword with its information symbols and that row.
    fn difference(&self, w: usize, row: &[u8; 32]) -> [u8; 255]
        requires { w < self.now.depth }
        ensures { Difference row.now self.now.depth self.now.block.now w (255 - self.now.fill - 2 * self.now.strength) (255 - self.now.fill) result }
    {
        let n = 255 - self.fill;
        let first = n - 2 * self.strength as usize;
        let mut rest = [0u8; 255];
        // By the symbol's number, since each of the three lists has another place for it.
        for k in first..n {
            rest[k] = row[k - first] ^ self.block[self.octet_of(k, w)];
        }
        rest
    }

    // The errors of word w: those of what its checks differ by from the checks that its information symbols would have.
    pub(crate) fn word_errors(&self, w: usize, row: &[u8; 32]) -> Option<WordErrors>
        requires { (w < self.now.depth) × CodedBy self.now.strength self.now.depth self.now.fill self.now.block.now w row.now }
        ensures { WordOutcome self.now.strength self.now.allowance (sent_from self.now.depth self.now.block.now w 0 (255 - self.now.fill)) (is_some result) (count_told result) (errors_told result) }
    {
        let rest = self.difference(w, row);
        words::find_errors(self.strength, self.allowance, &rest[..255 - self.fill])
    }

    // The first n symbols of word w, each with its error added, put into their places of a frame.
    // The frame's room is asked for as a length, here and by the callers: what is put needs room for the longest block, not a frame of one length.
    pub(crate) fn put_repaired(&self, w: usize, errors: &[u8; 255], n: usize, frame: &mut [u8])
        requires { (w < self.now.depth) × (n ≤ 255 - self.now.fill) × (2040 ≤ length frame.old) }
        ensures { Put self.now.depth w n self.now.block.now errors.now frame.old frame.new }
    {
        for (k, error) in errors[..n].iter().enumerate() {
            let at = self.octet_of(k, w);
            frame[at] = self.block[at] ^ *error;
        }
    }
}
