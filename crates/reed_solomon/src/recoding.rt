// The rows of checks that a block's own front gives; and whether it is coded as it stands: they are its checks.
ghost use Rattle.std.specs.Prelude.{◌≡◌, true, ◌+◌, ◌*◌, ◌≤◌, length, take};
ghost use Rattle.encoding.specs.Rows.{no_rows, RowsOn};
ghost use Rattle.reed_solomon.specs.DecoderWorking.{RowStands, Standing};

use crate::given::Given;
use encoding::rows_entered;

impl Given<'_> {
    // The words enter together, as in the encoder: one after the other each would wait for its own feedback.
    pub(crate) fn front_rows(&self, n: usize) -> [[u8; 32]; 8]
        requires { n ≤ length self.now.block.now }
        ensures { RowsOn self.now.strength self.now.depth 0 no_rows (take n self.now.block.now) result }
    {
        rows_entered(self.strength, [[0; 32]; 8], 0, &self.block[..n], self.depth)
    }

    // Whether a row's octets stand in the block from `first` on, `depth` octets apart.
    fn row_stands(&self, row: &[u8; 32], first: usize) -> bool
        requires { (first ≤ 2048) × (length self.now.block.now ≤ first + 32 * self.now.depth) }
        ensures { result ≡ true → RowStands row.now self.now.depth first self.now.block.now }
    {
        for (j, check) in row.iter().enumerate() {
            let at = first + j * self.depth;
            if at >= self.block.len() {
                break;
            }
            if self.block[at] != *check {
                return false;
            }
        }
        true
    }

    // Word after word.
    pub(crate) fn has_checks(&self, rows: &[[u8; 32]; 8], start: usize) -> bool
        requires { (start ≤ length self.now.block.now) × (length self.now.block.now ≤ start + 32 * self.now.depth) }
        ensures { result ≡ true → Standing rows.now self.now.depth start self.now.block.now }
    {
        for (w, row) in rows[..self.depth].iter().enumerate() {
            if !self.row_stands(row, start + w) {
                return false;
            }
        }
        true
    }
}
