// The two steps of encoding by themselves, for a frame that comes in portions and for the decoder: symbols enter rows, and rows are put behind
// a front as its checks. Any numbers are taken; where they do not fit, nothing is done.
ghost use Rattle.refusals.specs.Order.{Tells};
ghost use Rattle.encoding.specs.Rows.{MayEnter, RowsOutcome, ChecksFit, ChecksOutcome};

use crate::encoder::{enter, put_checks};
use crate::turn::Turn;

fn may_enter(e: u32, first: usize, depth: usize) -> bool
    ensures { Tells result (MayEnter e depth first) }
{
    refusals::strength_legal(e) && first < depth && depth <= 8
}

// The symbols enter in turn, the first of them the row of word `first`.
pub fn rows_entered(
    e: u32,
    mut rows: [[u8; 32]; 8],
    first: usize,
    symbols: &[u8],
    depth: usize,
) -> [[u8; 32]; 8]
    ensures { RowsOutcome e depth first rows symbols.now result }
{
    if may_enter(e, first, depth) {
        enter(e, &mut rows, Turn { word: first, depth }, symbols);
    }
    rows
}

fn checks_fit(depth: usize, start: usize, block: usize) -> bool
    ensures { Tells result (ChecksFit depth start block) }
{
    0 < depth && depth <= 8 && start <= block && block - start <= 32 * depth
}

// The rows interleaved, from octet `start` to the block's end.
pub fn write_checks(rows: [[u8; 32]; 8], depth: usize, start: usize, block: &mut [u8])
    ensures { ChecksOutcome rows depth start block.old block.new }
{
    if checks_fit(depth, start, block.len()) {
        put_checks(rows, depth, start, block);
    }
}
