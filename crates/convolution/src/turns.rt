// One turn of a call: a group of octets where a period begins and a whole group is left, else one octet.
ghost use Rattle.std.specs.Prelude.{◌≡◌, ◌+◌, ◌*◌, ◌/◌, ◌^◌, ◌≤◌, ◌<◌, length};
ghost use Rattle.convolution.specs.Coder.{low_bits, bits_of};
ghost use Rattle.convolution.specs.GroupWorking.{Grouped, Underway, Turned};

use crate::patterns::Pattern;
use crate::sums::{G1, G2};
use crate::writing::{behind_held, kept, write_group, write_ready};
use crate::{Flow, Group, Progress};

// The register with octets below it, in 64 bits: with 64 bits for one octet too, rate 1/2 takes longer (docs/DECISIONS.md).
fn window_of(register: u32, octets: &[u8]) -> u64
    requires { (register < 64) × (length octets.now ≤ 7) }
    ensures { (result / 2 ^ (8 * length octets.now) ≡ register) × (low_bits (8 * length octets.now) result ≡ bits_of octets.now) }
{
    let mut window = u64::from(register);
    for octet in octets {
        window = window * 256 + u64::from(*octet);
    }
    window
}

fn group_in(rate: u32, group: &Group, octets: &[u8], symbols: &mut [u8], at: Progress) -> Progress
    requires { Grouped rate group.now × Underway rate octets.now symbols.old at × (at.flow.place ≡ 0) × (at.read + group.now.octets ≤ length octets.now) }
    ensures { Turned rate octets.now symbols.old at symbols.new result }
{
    let flow = at.flow;
    let read = at.read + group.octets;
    let window = window_of(flow.register, &octets[at.read..read]);
    let sent = group.symbols(G1::sums(window), G2::sums(window));
    let out = behind_held(flow.held, flow.holds, sent, 8 * group.filled);
    write_group(symbols, at.written, out, group.filled);
    let next = Flow {
        register: (window % 64) as u32,
        place: 0,
        held: (sent % 128) as u32,
        holds: flow.holds,
    };
    Progress {
        flow: next,
        read,
        written: at.written + group.filled,
    }
}

impl Pattern {
    fn one_in(&self, octets: &[u8], symbols: &mut [u8], at: Progress) -> Progress
        requires { Underway self.now.rate octets.now symbols.old at × (at.read < length octets.now) × (self.now.rate ≡ 1 → ⊥) }
        ensures { Turned self.now.rate octets.now symbols.old at symbols.new result }
    {
        let full = self.octet_in(at.flow, octets[at.read]);
        write_ready(symbols, at.written, full.held, full.holds);
        Progress {
            flow: kept(full),
            read: at.read + 1,
            written: at.written + full.holds / 8,
        }
    }

    pub(crate) fn turn(
        &self,
        group: &Group,
        octets: &[u8],
        symbols: &mut [u8],
        at: Progress,
    ) -> Progress
        requires { Grouped self.now.rate group.now × Underway self.now.rate octets.now symbols.old at × (at.read < length octets.now) }
        ensures { Turned self.now.rate octets.now symbols.old at symbols.new result }
    {
        let flow = at.flow;
        if flow.place == 0 && octets.len() - at.read >= group.octets {
            return group_in(self.rate, group, octets, symbols, at);
        }
        self.one_in(octets, symbols, at)
    }
}
