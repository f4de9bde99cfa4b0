// The 32 received bits at a place as a number, first bit highest, its wrong bits and the form that it is nearer to.
ghost use Rattle.std.specs.Prelude.{◌≡◌, ◌+◌, ◌-◌, ◌*◌, ◌/◌, ◌%◌, ◌^◌, ◌<◌, ◌≤◌, nat_le};
ghost use Rattle.marker.specs.Working.{wrong_in, form_in, fewest_in};

use crate::{Form, Near};

// Written as 1A CF FC 1D.
const MARKER: u32 = 0x1ACFFC1D;

pub(crate) fn wrong_bits(window: u32) -> u32
    ensures { result ≡ wrong_in window }
{
    (window ^ MARKER).count_ones()
}

// Whether either form is within the tolerance, by one test: a count up to the tolerance, less one more than it, wraps round to a large number, and so comes above those
// between, as one within the tolerance of 32 does.
pub(crate) fn is_near(window: u32, tolerance: u32) -> bool
    requires { tolerance ≤ 3 }
    ensures { result ≡ nat_le (fewest_in window) tolerance }
{
    wrong_bits(window).wrapping_sub(tolerance + 1) >= 31 - 2 * tolerance
}

// The form that the window is nearer to; one count serves both.
pub(crate) fn nearer_form(window: u32) -> Near
    ensures { (result.form ≡ form_in window) × (result.wrong ≡ fewest_in window) }
{
    let wrong = wrong_bits(window);
    if wrong <= 16 {
        return Near {
            form: Form::True,
            wrong,
        };
    }
    Near {
        form: Form::Complement,
        wrong: 32 - wrong,
    }
}

// The window moved on by one bit, bit b of the octet, top bit first; its first bit falls out.
pub(crate) fn bit_entered(window: u32, octet: u8, b: usize) -> u32
    requires { b < 8 }
    ensures { result ≡ window * 2 % 2 ^ 32 + octet / 2 ^ (7 - b) % 2 }
{
    (window << 1) + u32::from((octet >> (7 - b)) % 2)
}

// The window moved on by the first n bits of an octet.
pub(crate) fn front_entered(window: u32, octet: u8, n: usize) -> u32
    requires { n ≤ 8 }
    ensures { result ≡ window * 2 ^ n % 2 ^ 32 + octet / 2 ^ (8 - n) }
{
    (window << n) + (u32::from(octet) >> (8 - n))
}
