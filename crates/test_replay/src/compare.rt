use crate::answer::answers;
use crate::case::{AUTODEREF, Case, FIXING, GET, UPDATE, WALK};
use crate::changing::{changes, gets, updates};
use crate::fixing::fixes;
use crate::planning::{plans, walks};
use crate::read::Lines;
use std::io;

fn agrees(case: &Case) -> bool {
    match case.question {
        ..FIXING => answers(case),
        FIXING => fixes(case),
        UPDATE => updates(case),
        GET => gets(case),
        AUTODEREF => plans(case),
        WALK => walks(case),
        _ => changes(case),
    }
}

// Compares every case, and writes how many there were and how many differ.
pub(crate) fn run_all(rt: &impl Print, text: &[u8]) -> io::Result<()> {
    let mut lines = Lines { rest: text };
    let mut words = [0; 1024];
    let mut cases = 0u64;
    let mut failed = 0u64;
    // No `for`: only reading a line tells where it ends, and no iterator of the library reads so.
    while !lines.rest.is_empty() {
        let count = lines.line(&mut words);
        cases += 1;
        if !agrees(&Case::from(&words[..count])) {
            println!(rt; "line {cases} differs")?;
            failed += 1;
        }
    }
    println!(rt; "{cases} answers of the Rust, {failed} differ")
}
