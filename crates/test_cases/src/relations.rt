use crate::report::Show;
use crate::types::{RELATED, TYPES};
use relation_questions::{Relation, coerces, relates};
use std::io;

fn related(rt: &impl Print, a: &[u64], b: &[u64]) -> io::Result<()> {
    for relation in [
        Relation::Identical,
        Relation::Equals,
        Relation::Like,
        Relation::DeclaredAs,
        Relation::ConcretizationOf,
    ] {
        relates(relation, a, b).show(rt)?;
    }
    print!(rt; " |")?;
    coerces(a, b).show(rt)?;
    for relation in [Relation::Autoderefs, Relation::Subautoderefs] {
        relates(relation, a, b).show(rt)?;
    }
    println!(rt)
}

// Every ordered pair, left slowest.
pub(crate) fn pairs(rt: &impl Print) -> io::Result<()> {
    print!(rt; "left right: identical equals like declared concretization")?;
    println!(rt; " | coerces autoderef subautoderef")?;
    let types = &TYPES[..RELATED];
    for (i, left) in types.iter().enumerate() {
        for (j, right) in types.iter().enumerate() {
            print!(rt; "{i} {j}:")?;
            related(rt, left.as_flattened(), right.as_flattened())?;
        }
    }
    Ok(())
}
