ghost use Rattle.std.specs.Prelude.{◌<◌};

use planner::Report;
use std::io;

pub(crate) fn heading(rt: &impl Print) -> io::Result<()> {
    println!(rt; "known asked target depth rounds: taken address coerced steps type")
}

// So many groups of words, each of so many.
fn groups(rt: &impl Print, words: &[u64], size: usize, count: u64) -> io::Result<()>
    requires { 0 < size }
{
    for group in words.chunks(size).take(count as usize) {
        print!(rt; " |")?;
        for word in group {
            print!(rt; " {word}")?;
        }
    }
    Ok(())
}

// A plan: what was told, and what was written.
pub(crate) fn outcome(rt: &impl Print, r: Report, steps: &[u64], ty: &[u64]) -> io::Result<()> {
    if r.refusal != 0 {
        return println!(rt; " !{}@{}", r.refusal, r.value);
    }
    print!(rt;
        " {} {} {}",
        r.taken,
        u64::from(r.address),
        u64::from(r.coerced)
    )?;
    print!(rt; " steps")?;
    groups(rt, steps, 4, r.steps)?;
    print!(rt; " type")?;
    groups(rt, ty, 3, r.layers)?;
    println!(rt)
}
