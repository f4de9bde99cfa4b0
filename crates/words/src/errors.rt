// The errors at the roots of a word's locator polynomial, for 16 roots at a time.
ghost use Rattle.std.specs.Prelude.{◌≡◌, ◌+◌, ◌*◌, ◌%◌, ◌≤◌, replicate};
ghost use Rattle.words.specs.Working.{Filled, terms, locator_power, error_at_each, CoefficientTaken, HoldsDivision, HoldsRoots, AreRoots, Placed, HoldsPlaces};

use crate::inverses::inverses;
use crate::locators::LOCATORS;
use crate::roots::Roots;
use crate::rows::{row_from, times, with_symbol};
use std::array;

// Which power of beta the m-th power of a locator is: they come round after 255.
fn times_round(power: u8, m: usize) -> usize
    requires { m ≤ 128 }
    ensures { result ≡ power * m % 255 }
{
    usize::from(power) * m % 255
}

// The m-th powers of the locators of 16 places, which are locators too. The bound is on m, not on a type: m is 1 here as well as the code's.
fn locator_powers(powers: &[u8; 16], m: usize) -> [u8; 16]
    requires { m ≤ 128 }
    ensures { Filled (locator_power powers.now m) 16 result 16 }
{
    array::from_fn(|i| LOCATORS[times_round(powers[i], m)])
}

// A list as a sequence, zero past its end.
fn term(s: &[u8], j: usize) -> u8
    ensures { result ≡ terms s.now j }
{
    if j < s.len() { s[j] } else { 0 }
}

// For each locator z: the quotient of lambda by x + z, paired with the syndromes s, and its value at z, both so far as the coefficients from
// the top were taken; and the quotient's next coefficient.
#[derive(Clone, Copy)]
struct Division {
    above: [u8; 16],
    below: [u8; 16],
    rest: [u8; 16],
}

// One coefficient of lambda more, and the syndrome of its place. It is called at one place only, so that the compiler puts it there, however
// often the decoder of a word is itself called.
fn with_coefficient(
    before: Division,
    locators: &[u8; 16],
    syndrome: u8,
    coefficient: u8,
) -> Division
    ensures { CoefficientTaken locators.now before.above before.below before.rest syndrome coefficient result.above result.below result.rest 16 }
{
    let Division { above, below, rest } = before;
    Division {
        above: array::from_fn(|i| field::mul(syndrome, rest[i]) ^ above[i]),
        below: array::from_fn(|i| field::mul(locators[i], below[i]) ^ rest[i]),
        rest: with_symbol(&rest, locators, coefficient),
    }
}

fn divided(s: &[u8], lambda: &[u8], locators: &[u8; 16]) -> Division
    ensures { HoldsDivision s.now lambda.now locators.now result.above result.below }
{
    let mut division = Division {
        above: [0; 16],
        below: [0; 16],
        rest: [0; 16],
    };
    for (j, coefficient) in lambda.iter().enumerate().rev() {
        division = with_coefficient(division, locators, term(s, j), *coefficient);
    }
    division
}

// A word of len symbols: its syndromes s, which begin at the m-th power of beta, and its locator polynomial.
#[derive(Clone, Copy)]
pub(crate) struct Located<'a> {
    pub(crate) s: &'a [u8],
    pub(crate) lambda: &'a [u8],
    pub(crate) len: usize,
    pub(crate) m: usize,
    ghost most: { len ≤ 255 },
    ghost zeros: { m ≤ 128 },
}

impl Located<'_> {
    // The error at each of 16 places, if it is a root.
    fn errors_at(&self, powers: &[u8; 16]) -> [u8; 16]
        ensures { Filled (error_at_each self.now.s.now self.now.lambda.now self.now.m powers.now) 16 result 16 }
    {
        let locators = locator_powers(powers, 1);
        let q = divided(self.s, self.lambda, &locators);
        let shift = locator_powers(powers, self.m);
        let divisor = times(&q.below, &shift);
        let inverse = inverses(&divisor);
        times(&q.above, &inverse)
    }

    // The errors at the roots from the first-th on, some of 16, put at their places.
    fn with_errors(
        &self,
        before: [u8; 255],
        powers: &[u8; 32],
        first: usize,
        some: usize,
    ) -> [u8; 255]
        requires { (first ≤ 16) × (some ≤ 16) × AreRoots self.now.lambda.now self.now.len powers.now (first + some) × Placed self.now.s.now self.now.lambda.now self.now.len self.now.m powers.now before first }
        ensures { Placed self.now.s.now self.now.lambda.now self.now.len self.now.m powers.now result (first + some) }
    {
        let row = row_from(powers, first);
        let errors = self.errors_at(&row);
        let mut out = before;
        // A root's power tells the place, its number the error.
        for (c, power) in row[..some].iter().enumerate() {
            let place = self.len - 1 - usize::from(*power);
            out[place] = errors[c];
        }
        out
    }

    // The errors of all places: those at the roots, elsewhere none. More than 16 roots there are only with marks.
    pub(crate) fn all_errors(&self, roots: Roots) -> [u8; 255]
        requires { (roots.count ≤ 32) × HoldsRoots self.now.lambda.now self.now.len roots.count roots.powers }
        ensures { HoldsPlaces self.now.s.now self.now.lambda.now self.now.len self.now.m result }
    {
        let Roots { count, powers } = roots;
        let out = self.with_errors([0; 255], &powers, 0, count.min(16));
        if count <= 16 {
            return out;
        }
        self.with_errors(out, &powers, 16, count - 16)
    }
}
