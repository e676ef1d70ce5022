// Runs points and edges of the crates' functions. A line says whether a value is what it must be, or what its bits are.
#![tactic(auto)]

mod draw;
mod floats;
mod memory;
mod report;

use std::io;

fn main(rt: HostRuntime) -> io::Result<()> {
    floats::run(&rt)?;
    draw::run(&rt)?;
    memory::run(&rt)
}
