// Polynomials over the field, lowest coefficient first.
ghost use Rattle.std.specs.Prelude.{◌≡◌, ◌≤◌, length};
ghost use Rattle.codewords.specs.Polynomials.{dot};
ghost use Rattle.words.specs.Working.{Filled, terms, by_root_at};

use std::array;

// The sum of the products, place by place.
pub(crate) fn pair(p: &[u8], s: &[u8]) -> u8
    requires { length p.now ≤ length s.now }
    ensures { result ≡ dot (terms s.now) 0 p.now }
{
    let mut sum: u8 = 0;
    for (a, b) in p.iter().zip(s) {
        sum ^= field::mul(*a, *b);
    }
    sum
}

// (x + z) p.
pub(crate) fn by_root(p: &[u8; 33], z: u8) -> [u8; 33]
    ensures { Filled (by_root_at z p.now) 33 result 33 }
{
    let mut moved_up: [u8; 33] = [0; 33];
    moved_up[1..].copy_from_slice(&p[..32]);
    array::from_fn(|j| moved_up[j] ^ field::mul(z, p[j]))
}
