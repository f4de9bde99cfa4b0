// The decoder of the convolutional code at rate 1/2: of all inputs the one whose symbols differ from the received ones in the fewest places.
#![tactic(auto)]

mod back;
mod costs;
mod found;
mod steps;
mod turning;
mod walk;

ghost use Rattle.viterbi.specs.Outcome.{LikeliestOutcome};

use back::rows_back;
pub use found::Likeliest;
use refusals::Parameter;
use turning::turned;
use walk::walk;

// The costs to go of the 64 registers above a base, and the ways that have them, as far as they are gathered.
#[derive(Clone, Copy)]
struct Column {
    costs: [u8; 64],
    ways: [u8; 64],
}

// The costs to go at the start, and the base above which they stand.
#[derive(Clone, Copy)]
struct Start {
    costs: [u8; 64],
    base: u32,
}

pub fn likeliest(register: u32, symbols: &[u8], data: &mut [u8]) -> Result<Likeliest, Parameter>
    ensures { LikeliestOutcome register symbols.now «data».old result «data».new }
{
    refusals::likeliest_parameters(register, symbols.len(), data.len())?;
    let mut rows = [[0u8; 64]; 256];
    let start = rows_back(symbols, &mut rows);
    let from = register as u8;
    let places = start.base + u32::from(start.costs[turned(from)]);
    let reached = walk(symbols, &rows, from, data);
    Ok(Likeliest {
        places,
        register: u32::from(reached),
    })
}
