// The report of marked, randomised blocks on standard input.
#![tactic(auto)]

use std::io;

fn main(rt: HostRuntime) -> io::Result<()> {
    reporting::report(&rt, &mut rt.stdin(), &mut io::writer(&rt))
}
