// One word as conventional octets, with marks for symbols that are doubtful.
ghost use Rattle.std.specs.Prelude.{◌≡◌, true, ℕ, ◌+◌, ◌≤◌, ◌<◌, get_or, length, is_some};
ghost use Rattle.codewords.specs.Locators.{weight};
ghost use Rattle.words.specs.Working.{DecidedBy};
ghost use Rattle.words.specs.Decision.{errors_decided, unmarked_decided};

use crate::errors::Located;
use crate::marks::Marks;
use crate::roots::Parted;

// A code of strength e that vanishes from the m-th power of beta on, and the allowance s.
#[derive(Clone, Copy)]
pub(crate) struct WordCode {
    pub(crate) m: usize,
    pub(crate) e: usize,
    pub(crate) s: usize,
    ghost zeros: { m ≤ 128 },
    ghost strength: { e ≤ 16 },
    ghost allowance: { s ≤ e },
}

// What to add to the symbols to have a good codeword; how many unmarked symbols differ.
#[derive(Clone, Copy)]
pub(crate) struct Decision {
    pub(crate) errors: [u8; 255],
    pub(crate) unmarked: usize,
}

// Nothing is marked and no syndrome tells of an error.
fn untouched(s: &[u8], f: usize) -> bool
    ensures { result ≡ true → (f ≡ 0) × ((i : ℕ) → i < length s.now → get_or s.now i 0 ≡ 0) }
{
    f == 0 && s.iter().all(|sum| *sum == 0)
}

// Errors are looked for, by the marks and the syndromes.
fn errors_found(marks: &Marks, sums: &[u8], code: WordCode) -> Option<Decision>
    requires { (marks.now.count ≤ code.s + code.s) × (length sums.now ≡ code.e + code.e) }
    ensures { (unmarked_decided result ≤ code.s) × DecidedBy code.m code.e code.s marks.now.marks.now sums.now (is_some result) (errors_decided result) (unmarked_decided result) }
{
    let locator = marks.unmarked_locator(sums);
    let len = locator.len;
    let f = marks.count;
    if len + len + f > code.s + code.s {
        return None;
    }
    let product = marks.times_marks(locator.sigma);
    let parts = (len + f + 3) / 3;
    let lambda = &product[..3 * parts];
    let places = marks.marks.len();
    let roots = Parted { lambda, parts }.find_roots(places);
    if roots.count != len + f {
        return None;
    }
    let located = Located {
        s: sums,
        lambda,
        len: places,
        m: code.m,
    };
    Some(Decision {
        errors: located.all_errors(roots),
        unmarked: len,
    })
}

// A word by its marks and its syndromes at the zeros of the code alone: what makes it a good codeword, or none if there is no good one.
pub(crate) fn decode_word(marks: &Marks, sums: &[u8], code: WordCode) -> Option<Decision>
    requires { length sums.now ≡ code.e + code.e }
    ensures { (unmarked_decided result ≤ code.s) × DecidedBy code.m code.e code.s marks.now.marks.now sums.now (is_some result) (errors_decided result) (unmarked_decided result) }
{
    if marks.count > code.s + code.s {
        return None;
    }
    if untouched(sums, marks.count) {
        return Some(Decision {
            errors: [0; 255],
            unmarked: 0,
        });
    }
    errors_found(marks, sums, code)
}
