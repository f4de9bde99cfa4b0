// Symbols marked as doubtful: what they add to the search for errors.
ghost use Rattle.std.specs.Prelude.{◌≡◌, ◌+◌, ◌-◌, ◌≤◌, ◌<◌, length};
ghost use Rattle.codewords.specs.Locators.{weight};
ghost use Rattle.words.specs.Working.{Filled, windowed, HoldsProduct, HoldsChanged};

use crate::locators::LOCATORS;
use crate::polynomials::{by_root, pair};
use crate::register::{polynomial, shortest_register};

// A mark for each symbol of a word, zero where it is not doubtful; and how many are marked, which is no length.
#[derive(Clone, Copy)]
pub(crate) struct Marks<'a> {
    pub(crate) marks: &'a [u8],
    pub(crate) count: usize,
    ghost most: { length marks.now ≤ 255 },
    ghost counted: { count ≡ weight marks.now },
}

// The syndromes of the word after its marked symbols are made not to count: gamma is the polynomial of the marked places.
fn changed(s: &[u8], gamma: &[u8]) -> [u8; 32]
    requires { (length s.now ≤ 32) × (0 < length gamma.now) × (length gamma.now ≤ length s.now + 1) }
    ensures { Filled (windowed s.now gamma.now) 32 result (length s.now + 1 - length gamma.now) }
{
    let mut out: [u8; 32] = [0; 32];
    // `out` by the number: what `iter_mut().zip` leaves is unknown to a proof.
    for (i, window) in s.windows(gamma.len()).enumerate() {
        out[i] = pair(gamma, window);
    }
    out
}

// The length and the polynomial of a register: an array and a number, since the library has no heap.
#[derive(Clone, Copy)]
pub(crate) struct Locator {
    pub(crate) len: usize,
    pub(crate) sigma: [u8; 33],
}

impl Marks<'_> {
    // The polynomial times x + z for the locator z of each marked place.
    pub(crate) fn times_marks(&self, start: [u8; 33]) -> [u8; 33]
        ensures { HoldsProduct start self.now.marks.now result }
    {
        if self.count == 0 {
            return start;
        }
        let mut out = start;
        for (mark, z) in self.marks.iter().rev().zip(&LOCATORS) {
            if *mark != 0 {
                out = by_root(&out, *z);
            }
        }
        out
    }

    // The shortest register of the syndromes changed by the marked places: the number and the places of the unmarked errors.
    pub(crate) fn unmarked_locator(&self, s: &[u8]) -> Locator
        requires { (length s.now ≤ 32) × (self.now.count ≤ length s.now) }
        ensures { HoldsChanged s.now self.now.marks.now result.len result.sigma }
    {
        if self.count == 0 {
            let g = shortest_register(s);
            return Locator {
                len: g.len,
                sigma: polynomial(&g.taps, g.len),
            };
        }
        let mut one: [u8; 33] = [0; 33];
        one[0] = 1;
        let gamma = self.times_marks(one);
        let size = self.count + 1;
        let left = s.len() - self.count;
        let t = changed(s, &gamma[..size]);
        let g = shortest_register(&t[..left]);
        Locator {
            len: g.len,
            sigma: polynomial(&g.taps, g.len),
        }
    }
}
