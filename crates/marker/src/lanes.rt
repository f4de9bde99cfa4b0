// The search by octets: the wrong bits of the eight places that begin in an octet are counted at once, one count in each octet of a number.
ghost use Rattle.std.specs.Prelude.{◌≡◌, ◌+◌, ◌-◌, ◌*◌, ◌<◌, ◌≤◌, true, length};
ghost use Rattle.marker.specs.Place.{NoneFits};
ghost use Rattle.marker.specs.Working.{lanes, common_wrong, tops_apart, TopsTell};

use crate::Searched;
use crate::hunt::Hunt;
use crate::table::OctetTable;

// The lowest bit of each count.
const ONES: u64 = 0x0101010101010101;

// The highest.
const TOPS: u64 = 0x8080808080808080;

impl OctetTable {
    // The eight counts over the three octets that all eight places have whole.
    fn common_at(&self, stream: &[u8], i: usize) -> u64
        requires { i + 4 < length stream.now }
        ensures { result ≡ lanes 8 (common_wrong stream.now i) }
    {
        self.added(0, stream[i + 1]) + self.added(1, stream[i + 2]) + self.added(2, stream[i + 3])
    }
}

// A count above the tolerance has its top bit set in the one sum. One so large that the complement's, which is the rest of the 24 bits, is not above it
// has it set in the other too. So the bits differ if neither form is near.
fn tops_apart(counts: u64, tolerance: u32) -> u64
    requires { (counts ≤ 24 * 0x0101010101010101) × (tolerance ≤ 3) }
    ensures { result ≡ tops_apart tolerance counts }
{
    let near = u64::from(tolerance);
    (counts + (127 - near) * ONES) ^ (counts + (104 + near) * ONES)
}

impl<'a> Hunt<'a> {
    fn tops_at(&self, table: &OctetTable, i: usize) -> u64
        requires { i + 4 < length self.now.stream.now }
        ensures { TopsTell self.now.tolerance self.now.stream.now i result }
    {
        tops_apart(table.common_at(self.stream, i), self.tolerance)
    }

    fn none_of_four(&self, table: &OctetTable, i: usize) -> bool
        requires { i + 7 < length self.now.stream.now }
        ensures { result ≡ true → NoneFits self.now.tolerance self.now.stream.now (8 * i) (8 * (i + 4)) }
    {
        let a = self.tops_at(table, i);
        let b = self.tops_at(table, i + 1);
        let c = self.tops_at(table, i + 2);
        let d = self.tops_at(table, i + 3);
        a & b & c & d & TOPS == TOPS
    }

    // By fours: how far no place fits as the 24 bits tell. Where octets begin and end is what each of these calls is asked, and `Hunt` does not know it.
    fn passed(&self, table: &OctetTable, first: usize, end: usize) -> usize
        requires { (first ≤ end) × (end + 4 ≤ length self.now.stream.now) }
        ensures { (first ≤ result) × (result ≤ end) × NoneFits self.now.tolerance self.now.stream.now (8 * first) (8 * result) }
    {
        let last = first + (end - first) / 4 * 4;
        for i in (first..last).step_by(4) {
            if !self.none_of_four(table, i) {
                return i;
            }
        }
        last
    }

    // Bit by bit.
    fn none_fits(&self, first: usize, end: usize) -> bool
        requires { (first ≤ end) × (end + 4 ≤ length self.now.stream.now) }
        ensures { result ≡ true → NoneFits self.now.tolerance self.now.stream.now (8 * first) (8 * end) }
    {
        matches!(
            self.walk(8 * (first as u64), 8 * ((end - first) as u64)),
            Searched::Spent { .. }
        )
    }

    // The first octet, of those at which it stopped to look bit by bit, from which on a place fits, or `end`. Of four random octets one in some hundred has a place
    // that is near in the 24 bits and does not fit.
    pub(crate) fn skipped(&self, first: usize, end: usize) -> usize
        requires { (first ≤ end) × (end + 4 ≤ length self.now.stream.now) }
        ensures { (first ≤ result) × (result ≤ end) × NoneFits self.now.tolerance self.now.stream.now (8 * first) (8 * result) }
    {
        let table = OctetTable::new();
        let mut i = first;
        // No `for`: how far each turn goes on is what it found.
        while i < end {
            let near = self.passed(&table, i, end);
            let next = end.min(near + 4);
            if !self.none_fits(near, next) {
                return near;
            }
            i = next;
        }
        end
    }
}
