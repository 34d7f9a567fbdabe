use crate::asking::{Given, USUAL, ask, line};
use crate::types::{INT32, Layer, POINTER, TYPES};
use std::io;
use type_numbers::StepKind;

// The most rounds, and two more, of a plan that is led back to pointers.
pub(crate) fn rounds(rt: &impl Print) -> io::Result<()> {
    println!(rt; "rounds")?;
    for rounds in 0..67 {
        line(rt, 18, 5, 0, Given { rounds, ..USUAL })?;
    }
    Ok(())
}

// Members, from a type and back to it.
fn asked(rt: &impl Print, t: &[Layer], members: &[[u64; 4]], rounds: u64) -> io::Result<()> {
    let ty = t.as_flattened();
    let steps = members.as_flattened();
    print!(rt; " {} words of members, {rounds} rounds:", steps.len())?;
    ask(rt, Given { rounds, ..USUAL }, ty, steps, ty)
}

// The most asked steps, one less and one more; and a plan that the most rounds cut off.
pub(crate) fn counts(rt: &impl Print) -> io::Result<()> {
    println!(rt; "asked")?;
    let itself = [StepKind::MEMBER, 7, 0, 0];
    asked(rt, TYPES[2], &[itself; 31], 64)?;
    asked(rt, TYPES[2], &[itself; 32], 64)?;
    asked(rt, TYPES[2], &[itself; 33], 64)?;
    let pointer = [StepKind::MEMBER, 2, 0, 0];
    for rounds in 62..66 {
        asked(rt, TYPES[18], &[pointer; 32], rounds)?;
    }
    Ok(())
}

// Two steps and one layer, with less and less room.
pub(crate) fn rooms(rt: &impl Print) -> io::Result<()> {
    println!(rt; "room")?;
    for room in 0..10 {
        for wide in 0..5 {
            print!(rt; " {room} {wide} words lent, ")?;
            let g = Given {
                room,
                wide,
                ..USUAL
            };
            line(rt, 23, 1, 0, g)?;
        }
    }
    Ok(())
}

// Fifteen Pointers around an Int32: their depth, one more and two more.
pub(crate) fn deep(rt: &impl Print) -> io::Result<()> {
    println!(rt; "depth")?;
    let mut known = [POINTER; 16];
    known[15] = INT32;
    for level in [0, 1, 14, 15, 16, 17, 255] {
        print!(rt; "16 layers at {level}:")?;
        let g = Given { level, ..USUAL };
        ask(rt, g, known.as_flattened(), &[], &INT32)?;
    }
    Ok(())
}

// A store that is not of so many records.
pub(crate) fn disorder(rt: &impl Print) -> io::Result<()> {
    println!(rt; "records")?;
    for records in [0, 6, 7, 8, 129] {
        print!(rt; " {records} records:")?;
        let g = Given { records, ..USUAL };
        ask(rt, g, &INT32, &[], &INT32)?;
    }
    Ok(())
}
