// The syndromes: the values of a word at 32 powers of beta, all in one pass over its symbols.
ghost use Rattle.std.specs.Prelude.{◌≡◌, map, ◌-◌, ◌≤◌, length, take, replicate};
ghost use Rattle.field.specs.Line.{to_conventional};
ghost use Rattle.codewords.specs.Locators.{syndromes};
ghost use Rattle.words.specs.Working.{Filled};

use crate::line::conventional;
use crate::locators::LOCATORS;
use crate::rows::{row_from, with_symbol};

// Always 32 of them, the number at the greater strength.
fn syndromes_from(m: usize, word: &[u8]) -> [u8; 32]
    requires { m ≤ 128 }
    ensures { Filled (syndromes m word.now) 32 result 32 }
{
    let points = row_from(&LOCATORS, m);
    let mut sums: [u8; 32] = [0; 32];
    for symbol in word {
        sums = with_symbol(&sums, &points, *symbol);
    }
    sums
}

fn zeros_before(sent: &[u8]) -> usize
    ensures { (result ≤ length sent.now) × (take result sent.now ≡ replicate result 0) }
{
    sent.iter()
        .position(|symbol| *symbol != 0)
        .unwrap_or(sent.len())
}

// Those of a word at the zeros of its code. Zeros in front add nothing to a value: a word of which only the checks are left is quickly done.
pub(crate) fn syndromes_of(e: usize, sent: &[u8]) -> [u8; 32]
    requires { (e ≤ 16) × (length sent.now ≤ 255) }
    ensures { Filled (syndromes (128 - e) (map to_conventional sent.now)) 32 result 32 }
{
    let first = zeros_before(sent);
    let n = sent.len() - first;
    let symbols = conventional(&sent[first..]);
    syndromes_from(128 - e, &symbols[..n])
}
