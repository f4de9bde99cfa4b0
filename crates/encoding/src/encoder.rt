// Encoding of a whole frame: its words' checks, and the block with frame and checks.
ghost use Rattle.std.specs.Prelude.{length};
ghost use Rattle.check_rows.specs.Rows.{added_at};
ghost use Rattle.refusals.specs.Order.{OneOf};
ghost use Rattle.refusals.specs.Sizes.{strengths};
ghost use Rattle.encoding.specs.Rows.{RowsOn, ChecksPut, ChecksFit};
ghost use Rattle.encoding.specs.Working.{StrengthTable, EnteredBy, RowsBy};
ghost use Rattle.encoding.specs.Outcome.{EncodeOutcome};

use crate::table_8::TABLE_8;
use crate::table_16::TABLE_16;
use crate::turn::Turn;
use check_rows::{FeedbackRows, stepped, table_of};
use octets::copy_front;
use refusals::{Code, Parameter};

// A row and a symbol by value, as octets that are known to be octets.
fn entered<R: FeedbackRows>(source: &R, row: [u8; 32], symbol: u8) -> [u8; 32]
    ensures { EnteredBy (R.adds source.now) row symbol result }
{
    stepped(source, row, symbol)
}

// The symbols enter in turn, whole frame or portion, the first of them the row of word `first`. The rows are lent, and a struct of
// the three would be taken apart in each turn.
fn enter_by<R: FeedbackRows>(source: &R, rows: &mut [[u8; 32]; 8], first: Turn, symbols: &[u8])
    ensures { RowsBy (R.adds source.now) first.depth first.word rows.old symbols.now rows.new }
{
    let mut turn = first;
    for symbol in symbols {
        rows[turn.word] = entered(source, rows[turn.word], *symbol);
        turn = turn.next();
    }
}

// The eight rows of a strength, for each of which one computed test is made.
fn rows_of(e: u32) -> &'static [u8; 256]
    requires { OneOf strengths e }
    ensures { StrengthTable e result.now }
{
    if e == 8 { &TABLE_8 } else { &TABLE_16 }
}

// The table is built here and not in `enter`, which would clear its 8,192 octets for a few symbols too.
#[inline(never)]
fn enter_many(bits: &[u8; 256], rows: &mut [[u8; 32]; 8], first: Turn, symbols: &[u8])
    ensures { RowsBy (added_at bits.now) first.depth first.word rows.old symbols.now rows.new }
{
    enter_by(&table_of(bits), rows, first, symbols);
}

// For fewer symbols the table would take longer to build than it spares.
pub(crate) fn enter(e: u32, rows: &mut [[u8; 32]; 8], first: Turn, symbols: &[u8])
    requires { OneOf strengths e }
    ensures { RowsOn e first.depth first.word rows.old symbols.now rows.new }
{
    let bits = rows_of(e);
    if symbols.len() < 100 {
        enter_by(bits, rows, first, symbols);
    } else {
        enter_many(bits, rows, first, symbols);
    }
}

// The checks follow the frame, interleaved as it is. They are counted: a division for each octet takes 2.8 times as long.
pub(crate) fn put_checks(rows: [[u8; 32]; 8], depth: usize, start: usize, block: &mut [u8])
    requires { ChecksFit depth start (length block.old) }
    ensures { ChecksPut rows depth start block.old block.new }
{
    let mut turn = Turn::first(depth);
    let mut check = 0usize;
    for octet in &mut block[start..] {
        *octet = rows[turn.word][check];
        turn = turn.next();
        if turn.word == 0 {
            check += 1;
        }
    }
}

// Nothing is written before every check has passed: a refusal leaves the block as it was.
pub fn encode(code: Code, frame: &[u8], block: &mut [u8]) -> Result<(), Parameter>
    ensures { EncodeOutcome code.strength code.depth code.fill frame.now block.old result block.new }
{
    refusals::encode_parameters(code, frame.len(), block.len())?;
    let depth = code.depth as usize;
    let mut rows = [[0u8; 32]; 8];
    enter(code.strength, &mut rows, Turn::first(depth), frame);
    copy_front(frame, block);
    put_checks(rows, depth, frame.len(), block);
    Ok(())
}
