use type_numbers::Kind;

// A layer of a type: its kind, a name and a number.
pub(crate) type Layer = [u64; 3];

pub(crate) const VOID: Layer = [Kind::VOID, 0, 0];

pub(crate) const INT32: Layer = [Kind::INT32, 0, 0];

pub(crate) const POINTER: Layer = [Kind::POINTER, 0, 0];

pub(crate) const VIEW: Layer = [Kind::VIEW, 0, 0];

pub(crate) const SLICE: Layer = [Kind::SLICE, 0, 0];

pub(crate) const SLICE_POINTER: Layer = [Kind::SLICE_POINTER, 0, 0];

// The first number that is no kind.
pub(crate) const NO_KIND: u64 = 25;

const INT8: Layer = [Kind::INT8, 0, 0];

const UINT8: Layer = [Kind::UINT8, 0, 0];

const BOOL: Layer = [Kind::BOOL, 0, 0];

const CHAR8: Layer = [Kind::CHAR8, 0, 0];

const ENDLESS_ARRAY: Layer = [Kind::ENDLESS_ARRAY, 0, 0];

const ARRAYLIKE: Layer = [Kind::ARRAYLIKE, 0, 0];

// How many types are held against each other.
pub(crate) const RELATED: usize = 24;

// The types that are fixed; 22 and 23 are none: a leaf early, and a bad layer.
pub(crate) const TYPES: [&[Layer]; 32] = [
    &[VOID],
    &[INT32],
    &[UINT8],
    &[CHAR8],
    &[[Kind::STRUCT, 5, 0]],
    &[[Kind::WORD, 5, 8]],
    &[[Kind::UNRESOLVED_STRUCT_OR_WORD, 0, 0]],
    &[[Kind::UNRESOLVED_STRUCT_OR_WORD, 5, 1]],
    &[[Kind::ARRAY, 0, 3], CHAR8],
    &[[Kind::ARRAY, 0, 3], UINT8],
    &[[Kind::ARRAY, 0, 4], CHAR8],
    &[[Kind::ARRAY_WITH_NAMED_LENGTH, 7, 0], CHAR8],
    &[SLICE, CHAR8],
    &[SLICE_POINTER, CHAR8],
    &[ENDLESS_ARRAY, CHAR8],
    &[ARRAYLIKE, CHAR8],
    &[POINTER, CHAR8],
    &[VIEW, INT32],
    &[POINTER, ARRAYLIKE, CHAR8],
    &[POINTER, ENDLESS_ARRAY, UINT8],
    &[VIEW, ENDLESS_ARRAY, CHAR8],
    &[VIEW, POINTER, INT32],
    &[POINTER, INT32, INT32],
    &[POINTER, [NO_KIND, 0, 0]],
    &[ARRAYLIKE, BOOL],
    &[ARRAYLIKE, VOID],
    &[ARRAYLIKE, ARRAYLIKE, INT8],
    &[ARRAYLIKE, VIEW, INT8],
    &[ARRAYLIKE, SLICE, INT8],
    &[ARRAYLIKE, ENDLESS_ARRAY, INT8],
    &[POINTER, ARRAYLIKE, BOOL],
    &[VIEW, VIEW, INT8],
];
