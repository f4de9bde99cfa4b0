// Which of the sums are sent: both of each bit at rate 1/2, else those that the pattern names.
ghost use Rattle.std.specs.Prelude.{◌≡◌, ◌≤◌, ◌<◌};
ghost use Rattle.convolution.specs.Working.{spread_of, mixed, ahead, Joined, Begun, Sent};

use crate::patterns::Pattern;
use crate::{Flow, Picking};

// The bits of an octet with a zero in front of each.
fn spread(octet: u8) -> u32
    ensures { result ≡ spread_of 8 octet }
{
    let bits = u32::from(octet);
    let fours = (bits | (bits << 4)) & 0x0f0f;
    let twos = (fours | (fours << 2)) & 0x3333;
    (twos | (twos << 1)) & 0x5555
}

// At rate 1/2 C1 and C2 of each bit in turn.
pub(crate) fn pairs(state: Flow, first: u8, second: u8) -> Flow
    requires { (state.place < 1) × (state.held < 128) × (state.holds < 8) }
    ensures { Sent 1 state first second result }
{
    Flow {
        held: state.held * 65536 + (spread(first) * 2 + spread(second)),
        holds: state.holds + 16,
        ..state
    }
}

// Of each bit C1 where the mask has a 1, else C2.
fn merged(mask: u8, first: u8, second: u8) -> u8
    ensures { result ≡ mixed first second mask }
{
    second ^ ((first ^ second) & mask)
}

// So many of the lowest bits, below the symbols held.
fn joined(held: u32, bits: u8, n: usize) -> u32
    requires { n ≤ 8 }
    ensures { Joined 32 held bits n result }
{
    (held << n) + (u32::from(bits) & ((1 << n) - 1))
}

// The bits up to the next that begins a period, of which C2 is sent too.
fn period_begun(period: usize, picks: Picking, merged: u8, second: u8) -> Picking
    requires { (0 < period) × (picks.ahead < picks.left) × (picks.left ≤ 8) × (picks.holds ≤ 23) }
    ensures { Begun period picks merged second result }
{
    let n = picks.ahead + 1;
    let left = picks.left - n;
    let below = joined(picks.held, merged >> left, n);
    Picking {
        held: joined(below, second >> left, 1),
        holds: picks.holds + n + 1,
        left,
        ahead: period - 1,
    }
}

// The bits from a place to the next that begins a period; and from so many bits before that one the place.
fn to_period(place: usize, period: usize) -> usize
    requires { place < period }
    ensures { result ≡ ahead period place }
{
    if place == 0 { 0 } else { period - place }
}

impl Pattern {
    // At every other rate what its pattern names. A turn takes the bits up to the next that begins a period, so there is nothing to count or to go over.
    pub(crate) fn punctured(&self, state: Flow, first: u8, second: u8) -> Flow
        requires { (state.place < self.now.period) × (state.holds < 8) }
        ensures { Sent self.now.rate state first second result }
    {
        let place = state.place;
        let both = merged(self.c1[place], first, second);
        let mut s = Picking {
            held: state.held,
            holds: state.holds,
            left: 8,
            ahead: to_period(place, self.period),
        };
        while s.ahead < s.left {
            s = period_begun(self.period, s, both, second);
        }
        Flow {
            register: state.register,
            place: to_period(s.ahead - s.left, self.period),
            held: joined(s.held, both, s.left),
            holds: s.holds + s.left,
        }
    }
}
