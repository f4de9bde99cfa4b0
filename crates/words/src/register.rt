// The shortest register that gives a sequence of at most 32 field elements. Its polynomial is held from the top coefficient down, so that it can
// grow where it stands; beside it stands by how much it fails at each term, which is worked on in the same way.
ghost use Rattle.std.specs.Prelude.{◌≡◌, ◌+◌, ◌≤◌, ◌<◌, length};
ghost use Rattle.words.specs.Working.{Filled, terms, behind_zeros, PutBehind, blended_from, HoldsRegister, HoldsPolynomial};

use std::array;

// Its length and polynomial: an array and a number, since the library has no heap.
#[derive(Clone, Copy)]
pub(crate) struct Register {
    pub(crate) len: usize,
    pub(crate) taps: [u8; 32],
}

// The terms, and zeros behind them. That they are at most 32 is asked here and below, not held by a type: they are parts of several arrays, and a
// type for such a part would only be made and taken apart again.
fn padded(s: &[u8]) -> [u8; 32]
    requires { length s.now ≤ 32 }
    ensures { Filled (terms s.now) 32 result 32 }
{
    let mut out: [u8; 32] = [0; 32];
    out[..s.len()].copy_from_slice(s);
    out
}

fn behind_zeros(taps: &[u8; 32]) -> [u8; 65]
    ensures { Filled (behind_zeros taps.now) 65 result 65 }
{
    let mut out: [u8; 65] = [0; 65];
    out[33..].copy_from_slice(taps);
    out
}

// b times the taps, and d times what is kept, from a place on.
fn blended(taps: &[u8; 32], b: u8, kept: &[u8; 65], from: usize, d: u8) -> [u8; 32]
    requires { from ≤ 33 }
    ensures { Filled (blended_from taps.now b kept.now from d) 32 result 32 }
{
    array::from_fn(|j| field::mul(b, taps[j]) ^ field::mul(d, kept[from + j]))
}

// Another row behind the same zeros.
fn put_behind(kept: &mut [u8; 65], row: &[u8; 32])
    ensures { PutBehind row.now kept.old kept.new }
{
    kept[33..].copy_from_slice(row);
}

// Of an earlier register the polynomial and its failures are kept behind zeros, and read from a place that is one lower for each term since; and
// `last` is by how much it failed at the term that made it longer.
pub(crate) fn shortest_register(s: &[u8]) -> Register
    requires { length s.now ≤ 32 }
    ensures { HoldsRegister (terms s.now) (length s.now) result.len result.taps }
{
    let mut taps: [u8; 32] = [0; 32];
    taps[0] = 1;
    let mut gaps = padded(s);
    let mut kept = behind_zeros(&taps);
    let mut kept_gaps = behind_zeros(&gaps);
    let mut len: usize = 0;
    let mut from: usize = 32;
    let mut last: u8 = 1;
    // By a number: each turn makes `gaps` anew.
    for n in 0..s.len() {
        let gap = gaps[n];
        if gap == 0 {
            from -= 1;
        } else {
            let more = blended(&taps, last, &kept, from, gap);
            let more_gaps = blended(&gaps, last, &kept_gaps, from, gap);
            if n < len + len {
                from -= 1;
            } else {
                put_behind(&mut kept, &taps);
                put_behind(&mut kept_gaps, &gaps);
                len = n + 1 - len;
                from = 32;
                last = gap;
            }
            taps = more;
            gaps = more_gaps;
        }
    }
    Register { len, taps }
}

// The polynomial itself, lowest coefficient first, if it is not too long to be of use.
pub(crate) fn polynomial(taps: &[u8; 32], len: usize) -> [u8; 33]
    ensures { HoldsPolynomial taps.now len result }
{
    array::from_fn(|j| if j <= len && len < 32 {
        taps[len - j]
    } else {
        0
    })
}
