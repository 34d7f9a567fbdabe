use crate::report::Show;
use crate::types::{INT32, Layer, NO_KIND, POINTER, SLICE, SLICE_POINTER, VIEW, VOID};
use std::io;
use type_numbers::Kind;
use type_stored_size::stored_size;

// In the heading's order; the Array of an Array is too large with every width.
const STORED: [&[Layer]; 10] = [
    &[[Kind::INT64, 0, 0]],
    &[[Kind::USIZE, 0, 0]],
    &[POINTER, INT32],
    &[VIEW, INT32],
    &[SLICE, INT32],
    &[SLICE_POINTER, INT32],
    &[[Kind::ARRAY, 0, 3], SLICE, INT32],
    &[VOID],
    &[
        [Kind::ARRAY, 0, 0],
        [Kind::ARRAY, 0, 9223372036854775808],
        [Kind::INT16, 0, 0],
    ],
    &[[NO_KIND, 0, 0]],
];

fn line(rt: &impl Print, width: u64) -> io::Result<()> {
    print!(rt; "width {width}:")?;
    for t in STORED {
        stored_size(t.as_flattened(), width).show(rt)?;
    }
    println!(rt)
}

// Stored sizes with every width from 0 to 17, and with the largest number.
pub(crate) fn widths(rt: &impl Print) -> io::Result<()> {
    print!(rt; "stored with: int64 usize pointer view slice slice_pointer")?;
    println!(rt; " three_slices void too_large no_kind")?;
    for width in 0..18 {
        line(rt, width)?;
    }
    line(rt, u64::MAX)
}
