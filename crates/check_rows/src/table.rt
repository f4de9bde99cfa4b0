// The table of eight rows: for each octet, the sum of the rows whose bit is set in it.
ghost use Rattle.std.specs.Prelude.{◌≡◌, ◌≤◌, ◌<◌, length};
ghost use Rattle.check_rows.specs.Rows.{SumTable};
ghost use Rattle.check_rows.specs.Working.{BitRow, SumPut, Doubled};

use std::array;

// The row of one bit, copied out. `words` copies its rows out by a function of its own: neither crate stands on the other.
fn bit_row(rows: &[u8; 256], bit: usize) -> [u8; 32]
    requires { bit < 8 }
    ensures { BitRow rows.now bit result }
{
    let first = 32 * bit;
    array::from_fn(|j| rows[first + j])
}

// Row `to` becomes row `from` with another row added.
fn put_sum(table: &mut [u8], from: usize, to: usize, row: [u8; 32])
    requires { (from < to) × (to < 256) × (length table.old ≡ 8192) }
    ensures { SumPut from to row table.old table.new }
{
    let source = 32 * from;
    let target = 32 * to;
    let sum: [u8; 32] = array::from_fn(|j| table[source + j] ^ row[j]);
    table[target..target + 32].copy_from_slice(&sum);
}

// As many rows more as there are: each of the old ones with the row of the next bit added. Rows go by number, since both stand in one table.
fn double(table: &mut [u8], size: usize, row: [u8; 32])
    requires { (0 < size) × (size ≤ 128) × (length table.old ≡ 8192) }
    ensures { Doubled size row table.old table.new }
{
    for f in 0..size {
        put_sum(table, f, size + f, row);
    }
}

// Built in each call: 8,192 constants would be stored one by one, and take longer to check than all else here.
pub fn table_of(rows: &[u8; 256]) -> [u8; 8192]
    ensures { SumTable rows.now result }
{
    let mut table = [0u8; 8192];
    // By the bit's number: it tells how many rows there are so far.
    for bit in 0..8 {
        double(&mut table, 1 << bit, bit_row(rows, 7 - bit));
    }
    table
}
