// Program: every question about one type and about two, and types fixed, of ordinary words and of the worst.
// What it writes is held to the stored lines.
#![tactic(auto)]

mod bad_words;
mod fixing;
mod inputs;
mod relations;
mod report;
mod types;
mod widths;

use std::io;

fn main(rt: HostRuntime) -> io::Result<()> {
    report::heading(&rt)?;
    inputs::counts(&rt)?;
    inputs::kinds(&rt)?;
    inputs::leaves(&rt)?;
    inputs::nested(&rt)?;
    inputs::arrays(&rt)?;
    widths::widths(&rt)?;
    bad_words::bad_words(&rt)?;
    relations::pairs(&rt)?;
    fixing::fixing(&rt)
}
