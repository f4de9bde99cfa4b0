// The search bit by bit: one place after the other.
ghost use Rattle.std.specs.Prelude.{◌≡◌, ◌+◌, ◌-◌, ◌*◌, ◌<◌, ◌≤◌, length};
ghost use Rattle.marker.specs.Working.{Carried, form_in, fewest_in};
ghost use Rattle.marker.specs.Outcome.{Looked};
ghost use Rattle.marker.specs.declared.Searched.TheVariants.{Found};

use crate::hunt::Hunt;
use crate::window::{bit_entered, front_entered, is_near, nearer_form};
use crate::{Near, Searched};

fn found(window: u32, place: u64, looked: u64) -> Searched
    ensures { result ≡ Found place (form_in window) (fewest_in window) looked }
{
    let Near { form, wrong } = nearer_form(window);
    Searched::Found {
        place,
        form,
        wrong,
        looked,
    }
}

// The window before the last bit of the first place, which is the first bit that is looked at.
fn window_before(stream: &[u8], start: u64) -> u32
    requires { (start + 31 < 8 * length stream.now) × (length stream.now ≤ 65536) }
    ensures { Carried stream.now start (start + 31) result }
{
    let end = ((start + 31) / 8) as usize;
    let mut window: u32 = 0;
    for octet in &stream[(start / 8) as usize..end] {
        window = front_entered(window, *octet, 8);
    }
    front_entered(window, stream[end], ((start + 31) % 8) as usize)
}

impl<'a> Hunt<'a> {
    // The window is carried from bit to bit, so that a place costs one shift. Where a step starts is its own, and asked of each. Put in place at each call:
    // a search that ends at its first places takes a quarter longer otherwise.
    #[inline(always)]
    pub(crate) fn walk(&self, start: u64, budget: u64) -> Searched
        requires { start ≤ 8 * length self.now.stream.now }
        ensures { Looked self.now.tolerance self.now.stream.now start budget result }
    {
        let octets = self.stream.len();
        let first = ((start + 31) / 8) as usize;
        if first >= octets {
            return Searched::Absent { looked: 0 };
        }
        let mut window = window_before(self.stream, start);
        let mut from = ((start + 31) % 8) as usize;
        let mut looked: u64 = 0;
        'octets: for octet in &self.stream[first..] {
            for b in from..8 {
                window = bit_entered(window, *octet, b);
                if looked == budget {
                    break 'octets;
                }
                if is_near(window, self.tolerance) {
                    return found(window, start + looked, looked + 1);
                }
                looked += 1;
            }
            from = 0;
        }
        let next = start + looked;
        if next + 32 <= 8 * (octets as u64) {
            return Searched::Spent {
                place: next,
                looked,
            };
        }
        Searched::Absent { looked }
    }
}
