// Long codewords at both strengths, all depths and several fills, encoded, damaged and decoded. The expected output is not made by
// this code: docs/src/README.md says where it comes from.
#![tactic(auto)]

ghost use Rattle.std.specs.Prelude.{◌≤◌};

mod damage;
mod trials;

use pages::Words;
use refusals::Code;
use std::io;

// No fill, one symbol, the middle, and all information symbols but one. `vectors` goes over the same fills, to calls of its own.
fn fills(rt: &impl Print, strength: u32, depth: u32) -> io::Result<()>
    requires { (1 ≤ strength) × (strength ≤ 16) × (depth ≤ 8) }
{
    let information = 255 - 2 * strength;
    for fill in [0, 1, information / 2, information - 1] {
        let code = Code {
            strength,
            depth,
            fill,
        };
        trials::all(rt, Words { code })?;
    }
    Ok(())
}

fn main(rt: HostRuntime) -> io::Result<()> {
    for strength in [8u32, 16] {
        for depth in [1u32, 2, 3, 4, 5, 8] {
            fills(&rt, strength, depth)?;
        }
    }
    Ok(())
}
