// Program: plans about a small table, every refusal of a plan but 1 and 3 among them, at the edges of rounds, steps, depth and room.
// Some of its members lead back to pointers. What it writes is held to the stored lines.
#![tactic(auto)]

mod asking;
mod members;
mod questions;
mod report;
mod sweeps;
mod types;

use std::io;

fn main(rt: HostRuntime) -> io::Result<()> {
    report::heading(&rt)?;
    asking::along(&rt)?;
    asking::settled(&rt)?;
    sweeps::rounds(&rt)?;
    sweeps::counts(&rt)?;
    sweeps::rooms(&rt)?;
    sweeps::deep(&rt)?;
    sweeps::disorder(&rt)
}
