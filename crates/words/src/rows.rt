// Rows of field elements, worked on side by side: each function makes a fresh row, which the compiler can keep in vector registers.
ghost use Rattle.std.specs.Prelude.{◌≡◌, ◌+◌, ◌<◌, ◌≤◌, length};
ghost use Rattle.words.specs.Working.{Filled, product_at, horner_at, later_at};

use std::array;

// N of a list, from a place on.
pub(crate) fn row_from<const N: usize>(list: &[u8], from: usize) -> [u8; N]
    requires { from + N ≤ length list.now }
    ensures { Filled (later_at list.now from) N result N }
{
    array::from_fn(|i| list[from + i])
}

// a b.
pub(crate) fn times(a: &[u8; 16], b: &[u8; 16]) -> [u8; 16]
    ensures { Filled (product_at a.now b.now) 16 result 16 }
{
    array::from_fn(|i| field::mul(a[i], b[i]))
}

// One symbol more, by Horner's rule at every point. The points come first in the product: what they are doubled to serves all symbols.
pub(crate) fn with_symbol<const N: usize>(sums: &[u8; N], points: &[u8; N], symbol: u8) -> [u8; N]
    ensures { Filled (horner_at sums.now points.now symbol) N result N }
{
    array::from_fn(
        |i: usize| -> u8
            requires { i < N }
            ensures { result ≡ horner_at sums.entry.now points.entry.now symbol i }
        { field::mul(points[i], sums[i]) ^ symbol },
    )
}
