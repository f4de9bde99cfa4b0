// The decoder of one word.
#![tactic(auto)]

mod decoder;
mod errors;
mod inverses;
mod line;
mod locators;
mod marks;
mod polynomials;
mod powers;
mod register;
mod roots;
mod rows;
mod syndromes;

ghost use Rattle.std.specs.Prelude.{◌≡◌, is_some, length};
ghost use Rattle.refusals.specs.Order.{Tells};
ghost use Rattle.codewords.specs.Locators.{weight};
ghost use Rattle.words.specs.Outcome.{LegalWord, WordOutcome, count_told, errors_told};

use decoder::{WordCode, decode_word};
use line::on_line;
use marks::Marks;
use syndromes::syndromes_of;

// How many symbols differ from a good codeword, and what to add to each symbol sent to have it: an octet for each of 255 places, of which the
// count is not the length.
#[derive(Clone, Copy, Debug, PartialEq, Eq)]
pub struct WordErrors {
    pub count: u32,
    pub errors: [u8; 255],
}

// The three parameters are those of `find_errors`, which stay: a struct for two private functions would be no plainer.
fn legal_word(e: u32, s: u32, sent: &[u8]) -> bool
    ensures { Tells result (LegalWord e s sent.now) }
{
    refusals::strength_legal(e) && s <= e && sent.len() > 2 * e as usize && sent.len() <= 255
}

fn no_marks() -> [u8; 255]
    ensures { (length result ≡ 255) × (weight result ≡ 0) }
{
    [0; 255]
}

fn errors_of_legal(e: u32, s: u32, sent: &[u8]) -> Option<WordErrors>
    requires { LegalWord e s sent.now }
    ensures { WordOutcome e s sent.now (is_some result) (count_told result) (errors_told result) }
{
    let strength = e as usize;
    let sums = syndromes_of(strength, sent);
    let unmarked = no_marks();
    let marks = Marks {
        marks: &unmarked[..sent.len()],
        count: 0,
    };
    let code = WordCode {
        m: 128 - strength,
        e: strength,
        s: s as usize,
    };
    let decision = decode_word(&marks, &sums[..strength + strength], code)?;
    Some(WordErrors {
        count: decision.unmarked as u32,
        errors: on_line(&decision.errors),
    })
}

// None if the word has no good codeword, or is none that document 01 allows.
pub fn find_errors(e: u32, s: u32, sent: &[u8]) -> Option<WordErrors>
    ensures { WordOutcome e s sent.now (is_some result) (count_told result) (errors_told result) }
{
    if !legal_word(e, s, sent) {
        return None;
    }
    errors_of_legal(e, s, sent)
}
