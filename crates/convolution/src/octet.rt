// One octet in: its sums, of these what the rate sends, and its last six bits as the register. An octet gives at most 16 symbols: with the at
// most 7 held before, they fit one number.
ghost use Rattle.std.specs.Prelude.{◌≡◌, ◌+◌, ◌*◌, ◌%◌, ◌<◌};
ghost use Rattle.convolution.specs.Working.{Sound, Filled};

use crate::Flow;
use crate::patterns::Pattern;
use crate::picks::pairs;
use crate::sums::{G1, G2};

// The register with the octet below it.
// The register is a plain number here, in `put_pair` and in a group's window: a type of its own for six bits would be unwrapped in each.
fn window_of(register: u32, octet: u8) -> u32
    requires { register < 64 }
    ensures { result ≡ register * 256 + octet }
{
    register * 256 + u32::from(octet)
}

fn last_six(window: u32) -> u32
    ensures { result ≡ window % 64 }
{
    window % 64
}

// At rate 1/2, where C2 is inverted.
pub(crate) fn half_in(state: Flow, octet: u8) -> Flow
    requires { Sound 1 state }
    ensures { Filled 1 state octet result }
{
    let window = window_of(state.register, octet);
    let first = (G1::sums(window) % 256) as u8;
    let second = 255 - (G2::sums(window) % 256) as u8;
    Flow {
        register: last_six(window),
        ..pairs(state, first, second)
    }
}

impl Pattern {
    pub(crate) fn octet_in(&self, state: Flow, octet: u8) -> Flow
        requires { Sound self.now.rate state × (self.now.rate ≡ 1 → ⊥) }
        ensures { Filled self.now.rate state octet result }
    {
        let window = window_of(state.register, octet);
        let first = (G1::sums(window) % 256) as u8;
        let second = (G2::sums(window) % 256) as u8;
        Flow {
            register: last_six(window),
            ..self.punctured(state, first, second)
        }
    }
}
