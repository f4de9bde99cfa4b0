// The marker test.
ghost use Rattle.std.specs.Prelude.{◌≡◌, length};
ghost use Rattle.marker.specs.Place.{form_at, fewest_wrong};
ghost use Rattle.marker.specs.Outcome.{TestOutcome};

use crate::Near;
use crate::window::nearer_form;
use refusals::MarkerRefusal;

fn nearer_in(octets: &[u8]) -> Near
    requires { length octets.now ≡ 4 }
    ensures { (result.form ≡ form_at octets.now 0) × (result.wrong ≡ fewest_wrong octets.now 0) }
{
    nearer_form(u32::from_be_bytes([octets[0], octets[1], octets[2], octets[3]]))
}

pub fn test(tolerance: u32, octets: &[u8]) -> Result<Near, MarkerRefusal>
    ensures { TestOutcome tolerance octets.now result }
{
    refusals::marker_parameters(tolerance, octets.len())?;
    let near = nearer_in(octets);
    if near.wrong > tolerance {
        return Err(MarkerRefusal::WrongBits(near.wrong));
    }
    Ok(near)
}
