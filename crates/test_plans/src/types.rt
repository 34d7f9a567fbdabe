use type_numbers::Kind;

// A layer of a type: its kind, a name and a number.
pub(crate) type Layer = [u64; 3];

pub(crate) const INT32: Layer = [Kind::INT32, 0, 0];

pub(crate) const STRUCT: Layer = [Kind::STRUCT, 5, 0];

pub(crate) const POINTER: Layer = [Kind::POINTER, 0, 0];

pub(crate) const VIEW: Layer = [Kind::VIEW, 0, 0];

pub(crate) const SLICE: Layer = [Kind::SLICE, 0, 0];

pub(crate) const ARRAY: Layer = [Kind::ARRAY, 0, 3];

pub(crate) const CHAR8: Layer = [Kind::CHAR8, 0, 0];

const SLICE_POINTER: Layer = [Kind::SLICE_POINTER, 0, 0];

const ENDLESS_ARRAY: Layer = [Kind::ENDLESS_ARRAY, 0, 0];

const ARRAYLIKE: Layer = [Kind::ARRAYLIKE, 0, 0];

// The types that a plan is asked from and to; 5 is none.
pub(crate) const TYPES: [&[Layer]; 26] = [
    &[INT32],
    &[CHAR8],
    &[STRUCT],
    &[[Kind::WORD, 5, 8]],
    &[[Kind::VOID, 0, 0]],
    &[[Kind::INT32, 0, 1]],
    &[SLICE, INT32],
    &[SLICE, CHAR8],
    &[SLICE, STRUCT],
    &[SLICE_POINTER, INT32],
    &[SLICE_POINTER, STRUCT],
    &[ENDLESS_ARRAY, INT32],
    &[ARRAYLIKE, INT32],
    &[POINTER, INT32],
    &[VIEW, INT32],
    &[POINTER, STRUCT],
    &[VIEW, STRUCT],
    &[POINTER, POINTER, INT32],
    &[POINTER, POINTER, STRUCT],
    &[VIEW, POINTER, INT32],
    &[POINTER, ARRAYLIKE, INT32],
    &[VIEW, ARRAYLIKE, STRUCT],
    &[POINTER, ENDLESS_ARRAY, INT32],
    &[POINTER, ARRAY, INT32],
    &[VIEW, ARRAY, STRUCT],
    &[POINTER, SLICE, INT32],
];
