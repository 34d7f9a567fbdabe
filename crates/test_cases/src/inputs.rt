use crate::report::report;
use crate::types::{INT32, NO_KIND, POINTER, SLICE};
use std::io;
use type_first_refusal::check_type;
use type_numbers::Kind;

// Every word count from 0 to 51, with a leaf missing.
pub(crate) fn counts(rt: &impl Print) -> io::Result<()> {
    let pointers = [POINTER; 17];
    let words = pointers.as_flattened();
    for n in 0..=words.len() {
        report(rt, &words[..n])?;
    }
    Ok(())
}

// Sixteen layers with a leaf at each of them in turn: early at each but the last.
pub(crate) fn leaves(rt: &impl Print) -> io::Result<()> {
    for i in 0..16 {
        let mut layers = [POINTER; 16];
        layers[i] = INT32;
        report(rt, layers.as_flattened())?;
    }
    Ok(())
}

// Every kind, and the first number that is none, with good and with bad words: alone, and around an Int32.
pub(crate) fn kinds(rt: &impl Print) -> io::Result<()> {
    let words = [
        (0, 0),
        (1, 0),
        (0, 1),
        (1, 1),
        (1, 2),
        (4294967295, 0),
        (4294967296, 0),
        (4294967296, 1),
        (0, u64::MAX),
    ];
    for k in 0..=NO_KIND {
        for (name, number) in words {
            report(rt, &[k, name, number])?;
            report(rt, &[k, name, number, Kind::INT32, 0, 0])?;
        }
    }
    Ok(())
}

// A layer around a leaf, or around a layer around an Int32.
fn around(rt: &impl Print, k: u64, inner: u64) -> io::Result<()> {
    let words = [k, 0, 0, inner, 0, 0, Kind::INT32, 0, 0];
    if check_type(&words[..6]).is_ok() {
        report(rt, &words[..6])
    } else {
        report(rt, &words)
    }
}

// Every kind that holds a layer, around every kind.
pub(crate) fn nested(rt: &impl Print) -> io::Result<()> {
    for k in Kind::ARRAY..NO_KIND {
        for inner in 0..NO_KIND {
            around(rt, k, inner)?;
        }
    }
    Ok(())
}

// Stored sizes at the edge: the largest, one more, an element over it, no size. Then those that depend on the width.
fn arrays_of_arrays(rt: &impl Print) -> io::Result<()> {
    let arrays = [
        (4294967296, 4294967295, Kind::INT8),
        (4294967296, 4294967296, Kind::INT8),
        (1, u64::MAX, Kind::BOOL),
        (0, 9223372036854775808, Kind::INT16),
        (0, 9223372036854775807, Kind::INT16),
        (u64::MAX, u64::MAX, Kind::VOID),
        (u64::MAX, 0, Kind::INT128),
        (1, 2305843009213693951, Kind::USIZE),
        (1, 2305843009213693952, Kind::USIZE),
        (0, 4611686018427387903, Kind::USIZE),
        (0, 4611686018427387904, Kind::USIZE),
    ];
    for (length, inner, leaf) in arrays {
        let words = [Kind::ARRAY, 0, length, Kind::ARRAY, 0, inner, leaf, 0, 0];
        report(rt, &words)?;
    }
    Ok(())
}

// The same of an Array of Slices.
fn arrays_of_slices(rt: &impl Print) -> io::Result<()> {
    let lengths = [
        1152921504606846975,
        1152921504606846976,
        2305843009213693951,
        2305843009213693952,
    ];
    for length in lengths {
        let layers = [[Kind::ARRAY, 0, length], SLICE, INT32];
        report(rt, layers.as_flattened())?;
    }
    Ok(())
}

pub(crate) fn arrays(rt: &impl Print) -> io::Result<()> {
    arrays_of_arrays(rt)?;
    arrays_of_slices(rt)
}
