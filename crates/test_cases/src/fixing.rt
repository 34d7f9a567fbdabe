use crate::report::Show;
use crate::types::TYPES;
use extern_fixing::fix_type_for_flags;
use std::io;

// What stands in a buffer before.
const BEFORE: u64 = 7;

// The answer and what the buffer holds then; and the answer for a buffer of eight words.
fn fixed(rt: &impl Print, t: &[u64], external: bool, context: u64) -> io::Result<()> {
    let mut out = [BEFORE; 12];
    fix_type_for_flags(t, external, context, &mut out).show(rt)?;
    print!(rt; " |")?;
    for word in out {
        print!(rt; " {word}")?;
    }
    print!(rt; " |")?;
    fix_type_for_flags(t, external, context, &mut [BEFORE; 8]).show(rt)?;
    println!(rt)
}

// Every type, not extern and extern, in every context, and the first number that is none.
pub(crate) fn fixing(rt: &impl Print) -> io::Result<()> {
    println!(rt; "type external context: fixed | buffer | in eight words")?;
    for (i, t) in TYPES.iter().enumerate() {
        for external in [false, true] {
            for context in 0..5 {
                print!(rt; "{i} {} {context}:", u64::from(external))?;
                fixed(rt, t.as_flattened(), external, context)?;
            }
        }
    }
    Ok(())
}
