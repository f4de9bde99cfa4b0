// One symbol enters a row of check octets.
ghost use Rattle.std.specs.Prelude.{◌≡◌, ℕ, ◌*◌, ◌<◌};
ghost use Rattle.check_rows.specs.Rows.{added_at, table_at, RowAdded, Stepped};
ghost use Rattle.check_rows.specs.Working.{MovedUp, bit_at};

use std::array;

// Rows for the octet that is fed back: what it adds to a row of check octets.
pub trait FeedbackRows {
    // What a feedback octet adds at a place.
    ghost adds: { Self → ℕ → ℕ → ℕ };

    fn added_to(&self, feedback: u8, row: [u8; 32]) -> [u8; 32]
        ensures { RowAdded (adds self.now feedback) row result };
}

// Eight rows, one for each bit of the feedback: for a few symbols, since nothing is to be built for them.
impl FeedbackRows for [u8; 256] {
    ghost adds = { added_at };

    fn added_to(&self, feedback: u8, row: [u8; 32]) -> [u8; 32] {
        let mut sum = row;
        // By the bit's number, which is the row's too.
        for bit in 0..8 {
            // In two steps: the borrow checker does not cover `sum = with_bit(.., sum)`.
            let more = with_bit(self, feedback, bit, sum);
            sum = more;
        }
        sum
    }
}

// A table of 256 rows, one for each feedback: for many symbols, since one row is added in place of eight.
impl FeedbackRows for [u8; 8192] {
    ghost adds = { table_at };

    fn added_to(&self, feedback: u8, row: [u8; 32]) -> [u8; 32] {
        let first = 32 * usize::from(feedback);
        array::from_fn(|j| row[j] ^ self[first + j])
    }
}

pub fn stepped<R: FeedbackRows>(rows: &R, row: [u8; 32], symbol: u8) -> [u8; 32]
    ensures { Stepped (R.adds rows.now) row symbol result }
{
    rows.added_to(symbol ^ row[0], moved_up(row))
}

fn moved_up(row: [u8; 32]) -> [u8; 32]
    ensures { MovedUp row result }
{
    let mut moved = [0u8; 32];
    moved[..31].copy_from_slice(&row[1..]);
    moved
}

// 255 for a bit that is set. The mask is read from a list: one that is computed the compiler knows to be a choice, and makes a branch of it.
fn mask_of(bit: u8) -> u8
    requires { bit < 2 }
    ensures { result ≡ 255 * bit }
{
    let masks = [0u8, 255];
    masks[usize::from(bit)]
}

// A mask in place of a branch: the loop then works on the whole row at once.
fn with_bit(rows: &[u8; 256], feedback: u8, bit: usize, row: [u8; 32]) -> [u8; 32]
    requires { bit < 8 }
    ensures { RowAdded (bit_at rows.now feedback bit) row result }
{
    let mask = mask_of((feedback >> (7 - bit)) % 2);
    let first = 32 * bit;
    array::from_fn(|j| row[j] ^ (mask & rows[first + j]))
}
