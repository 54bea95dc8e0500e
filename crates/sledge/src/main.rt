// Reads a script and run lines from standard input, runs the script under the monitor, and writes what the run lines asked for.
#![tactic(auto)]

use crate::input::read_input;
use crate::session::respond;
use std::io::Write;

mod input;
mod session;
mod slabs;
mod stop;

fn run(rt: &HostRuntime) -> anyhow::Result<()> {
    let input = read_input(rt.alloc(), rt.stdin())?;
    let output = respond(rt.alloc(), &input)?;
    rt.stdout().write_all(&output)?;
    Ok(())
}

fn main(rt: HostRuntime) -> anyhow::Result<()> {
    run(&rt)
}
