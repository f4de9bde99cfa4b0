// The places of a word that are roots of its locator polynomial. Three places 85 apart have the same cube, so the polynomial is taken in three
// parts at the cubes, and each part serves three places.
ghost use Rattle.std.specs.Prelude.{◌≡◌, ◌+◌, ◌*◌, ◌≤◌, ◌<◌, length};
ghost use Rattle.words.specs.Working.{Filled, values_from, InThirds, Joined, RowPut, OneMore, HoldsRoots};

use crate::locators::LOCATORS;
use crate::powers::{CUBES, SQUARES};
use crate::rows::{row_from, times, with_symbol};
use std::array;

// The 85th power of beta: its cube is one.
const THIRD_OF_ONE: u8 = 0xAB;

#[derive(Clone, Copy)]
struct Thirds {
    first: [u8; 16],
    second: [u8; 16],
    third: [u8; 16],
}

// The values at three places for each point: z is one of its cube roots, and its square stands beside it.
fn joined(parts: Thirds, z: &[u8; 16], square: &[u8; 16]) -> Thirds
    ensures { Joined parts.first parts.second parts.third z.now square.now result.first result.second result.third 16 }
{
    let a = parts.first;
    let b = times(z, &parts.second);
    let c = times(square, &parts.third);
    let turned: [u8; 16] = array::from_fn(|i| field::mul(THIRD_OF_ONE, b[i] ^ c[i]));
    Thirds {
        first: array::from_fn(|i| a[i] ^ b[i] ^ c[i]),
        second: array::from_fn(|i| a[i] ^ c[i] ^ turned[i]),
        third: array::from_fn(|i| a[i] ^ b[i] ^ turned[i]),
    }
}

fn put_row(values: &mut [u8], at: usize, row: &[u8; 16])
    requires { at + 16 ≤ length values.old }
    ensures { RowPut at row.now values.old values.new }
{
    values[at..at + 16].copy_from_slice(row);
}

// How many roots were found, and which powers of beta the first 32 of them are: an array and a number, since the library has no heap.
#[derive(Clone, Copy)]
pub(crate) struct Roots {
    pub(crate) count: usize,
    pub(crate) powers: [u8; 32],
}

impl Roots {
    fn put(&mut self, power: usize)
        requires { (self.old.count < 256) × (power < 256) }
        ensures { OneMore self.old.count self.old.powers power self.new.count self.new.powers }
    {
        if self.count < 32 {
            self.powers[self.count] = power as u8;
        }
        self.count += 1;
    }
}

// A polynomial of so many coefficients in each of three parts: a third of its length, which every turn asks for.
#[derive(Clone, Copy)]
pub(crate) struct Parted<'a> {
    pub(crate) lambda: &'a [u8],
    pub(crate) parts: usize,
    ghost whole: { length lambda.now ≡ 3 * parts },
    ghost few: { parts ≤ 11 },
}

impl Parted<'_> {
    // The parts, every third coefficient each, at the points.
    fn in_thirds(&self, points: &[u8; 16]) -> Thirds
        ensures { InThirds self.now.lambda.now points.now result.first result.second result.third }
    {
        let mut first: [u8; 16] = [0; 16];
        let mut second: [u8; 16] = [0; 16];
        let mut third: [u8; 16] = [0; 16];
        // By a number: chunks of three would be read at 0, 1 and 2, which is no plainer.
        for j in (0..self.parts).rev() {
            first = with_symbol(&first, points, self.lambda[3 * j]);
            second = with_symbol(&second, points, self.lambda[3 * j + 1]);
            third = with_symbol(&third, points, self.lambda[3 * j + 2]);
        }
        Thirds {
            first,
            second,
            third,
        }
    }

    // The values at 16 places from `at` on, at those 85 further, and at those 170 further.
    fn values_at(&self, at: usize) -> Thirds
        requires { at + 16 ≤ 96 }
        ensures { Filled (values_from self.now.lambda.now at) 16 result.first 16 × Filled (values_from self.now.lambda.now (85 + at)) 16 result.second 16 × Filled (values_from self.now.lambda.now (170 + at)) 16 result.third 16 }
    {
        let points = row_from(&CUBES, at);
        let parted = self.in_thirds(&points);
        let z = row_from(&LOCATORS, at);
        let square = row_from(&SQUARES, at);
        joined(parted, &z, &square)
    }

    // The values at all places. Rows overlap there, and have the same values where they do.
    fn values_everywhere(&self) -> [u8; 288]
        ensures { Filled (values_from self.now.lambda.now 0) 288 result 266 }
    {
        let mut values = [0u8; 288];
        // A number of rows, which index nothing: a loop by steps of 16 would need a measure to be proved.
        for row in 0usize..6 {
            let at = 16 * row;
            let found = self.values_at(at);
            put_row(&mut values, at, &found.first);
            put_row(&mut values, 85 + at, &found.second);
            put_row(&mut values, 170 + at, &found.third);
        }
        values
    }

    // The places of len sent symbols, the last first, since powers count from the end: a place of the fill is never looked at.
    pub(crate) fn find_roots(&self, len: usize) -> Roots
        requires { len ≤ 255 }
        ensures { HoldsRoots self.now.lambda.now len result.count result.powers }
    {
        let values = self.values_everywhere();
        let mut found = Roots {
            count: 0,
            powers: [0; 32],
        };
        for (power, value) in values[..len].iter().enumerate() {
            if *value == 0 {
                found.put(power);
            }
        }
        found
    }
}
