use crate::types::{ARRAY, CHAR8, INT32, Layer, POINTER, SLICE, STRUCT, VIEW};
use symbol_columns::{Column, Columns, Symbol, put_row};
use type_numbers::{Limit, State};
use write_words::write_words;

// How many members the table has, under the ids 1 to 7.
pub(crate) const RECORDS: usize = 7;

// An Int32; a Pointer to a Pointer back to the Struct; one that is poisoned; a Pointer to a Slice, which is ill formed; a
// Slice of Char8; a View of an Array of the Struct; the Struct itself.
const MEMBERS: [&[Layer]; RECORDS] = [
    &[INT32],
    &[POINTER, POINTER, STRUCT],
    &[INT32],
    &[POINTER, SLICE, INT32],
    &[SLICE, CHAR8],
    &[VIEW, ARRAY, STRUCT],
    &[STRUCT],
];

const POISONED: usize = 2;

// The table in columns.
pub(crate) fn columns() -> Columns {
    let mut flat = [0; Column::WORDS];
    for (slot, t) in MEMBERS.iter().enumerate() {
        let symbol = Symbol {
            id: slot as u32 + 1,
            authority: false,
            place: 0,
            state: if slot == POISONED {
                State::POISONED
            } else {
                State::TYPED
            },
            layers: t.len() as u64,
            mark: 0,
        };
        put_row(&mut flat, slot, symbol);
    }
    flat
}

// The words of the members' types.
pub(crate) fn store() -> [u64; RECORDS * Limit::SLOT_WORDS] {
    let mut words = [0; RECORDS * Limit::SLOT_WORDS];
    for (slot, t) in words.chunks_exact_mut(Limit::SLOT_WORDS).zip(MEMBERS) {
        write_words(slot, t.as_flattened());
    }
    words
}
