// The search for the marker at every bit of a stream.
ghost use Rattle.std.specs.Prelude.{◌+◌, ◌-◌, ◌*◌, ◌≤◌, length};
ghost use Rattle.marker.specs.Place.{NoneFits, remaining};
ghost use Rattle.marker.specs.Outcome.{Looked, SearchOutcome};

use crate::Searched;
use crate::hunt::Hunt;
use refusals::Parameter;

// No stream has more places.
const MOST: u64 = 524288;

// A marker is mostly where it is expected: the places of so many octets are looked at before a table is made for those behind them,
const NEAR: usize = 48;

// and only if there are so many of these.
const PAYS: usize = 32;

// Octets whose eight places, and those before them, are all places of the stream and within the budget.
fn whole_octets(octets: usize, start: u64, budget: u64) -> usize
    requires { (octets ≤ 65536) × (start ≤ 8 * octets) }
    ensures { (8 * result ≤ start + budget) × (result ≤ octets - 4) }
{
    let affordable = ((start + budget.min(MOST)) / 8) as usize;
    affordable.min(octets.saturating_sub(4))
}

impl<'a> Hunt<'a> {
    // The walk goes on behind the first `before` places, none of which fits.
    fn walk_on(&self, start: u64, budget: u64, before: u64) -> Searched
        requires { (start ≤ 8 * length self.now.stream.now) × (before ≤ budget) × (before ≤ remaining self.now.stream.now start) × NoneFits self.now.tolerance self.now.stream.now start (start + before) }
        ensures { Looked self.now.tolerance self.now.stream.now start budget result }
    {
        match self.walk(start + before, budget - before) {
            Searched::Found {
                place,
                form,
                wrong,
                looked,
            } => Searched::Found {
                place,
                form,
                wrong,
                looked: before + looked,
            },
            Searched::Absent { looked } => Searched::Absent {
                looked: before + looked,
            },
            Searched::Spent { place, looked } => Searched::Spent {
                place,
                looked: before + looked,
            },
        }
    }

    // The first places bit by bit, up to an octet's beginning; then the octets in which none fits are passed over.
    fn look(&self, start: u64, budget: u64) -> Searched
        requires { start ≤ 8 * length self.now.stream.now }
        ensures { Looked self.now.tolerance self.now.stream.now start budget result }
    {
        let first = ((start + 7) / 8) as usize + NEAR;
        let end = whole_octets(self.stream.len(), start, budget);
        if end < first + PAYS {
            return self.walk(start, budget);
        }
        let near = self.walk(start, 8 * (first as u64) - start);
        if let Searched::Spent { .. } = near {
            let octet = self.skipped(first, end);
            return self.walk_on(start, budget, 8 * (octet as u64) - start);
        }
        near
    }
}

pub fn search(tolerance: u32, stream: &[u8], start: u64, budget: u64) -> Result<Searched, Parameter>
    ensures { SearchOutcome tolerance stream.now start budget result }
{
    refusals::search_parameters(tolerance, stream.len(), start)?;
    Ok(Hunt { tolerance, stream }.look(start, budget))
}
