// Runs the coders on the documents' tables, on worked cases, at every limit and one past it. The expected output is not
// made by this code: docs/src/README.md says where each line comes from.
#![tactic(auto)]

ghost use Rattle.std.specs.Prelude.{◌≡◌, ◌+◌, ◌*◌, ◌≤◌};

mod answers;
mod calls;
mod chaining;
mod coding;
mod convolving;
mod likeliest;
mod limits;
mod marking;
mod portioning;
mod randomising;
mod salvaging;
mod symbols;
mod wrong;

use pages::Words;
use refusals::Code;
use std::io;

fn code(strength: u32, depth: u32, fill: u32) -> Code
    ensures strength { result.strength ≡ strength }
    ensures depth { result.depth ≡ depth }
    ensures fill { result.fill ≡ fill }
{
    Code {
        strength,
        depth,
        fill,
    }
}

// Words of the shortest blocks.
fn shortest(strength: u32, fill: u32) -> Words
    requires { (1 ≤ strength) × (2 * strength + fill ≤ 254) }
{
    let code = code(strength, 1, fill);
    Words { code }
}

fn main(rt: HostRuntime) -> io::Result<()> {
    symbols::all(&rt)?;
    randomising::all(&rt)?;
    marking::all(&rt)?;
    convolving::all(&rt)?;
    likeliest::all(&rt)?;
    limits::all(&rt)?;
    coding::all(&rt)?;
    salvaging::all(&rt)?;
    portioning::all(&rt)?;
    chaining::all(&rt)
}
