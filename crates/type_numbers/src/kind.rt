// A kind of layer: its number. "Each kind's number is a constant of the kind", as the rules name the form, and no enum:
// C lends layers as words, and `outer` and the rules answer for any word.
#[derive(Clone, Copy)]
pub struct Kind(pub u64);

impl Kind {
    pub const VOID: u64 = 0;

    pub const INT8: u64 = 1;

    pub const INT16: u64 = 2;

    pub const INT32: u64 = 3;

    pub const INT64: u64 = 4;

    pub const INT128: u64 = 5;

    pub const UINT8: u64 = 6;

    pub const UINT16: u64 = 7;

    pub const UINT32: u64 = 8;

    pub const UINT64: u64 = 9;

    pub const UINT128: u64 = 10;

    pub const USIZE: u64 = 11;

    pub const CHAR8: u64 = 12;

    pub const BOOL: u64 = 13;

    pub const ARRAY: u64 = 14;

    pub const ARRAY_WITH_NAMED_LENGTH: u64 = 15;

    pub const SLICE: u64 = 16;

    pub const SLICE_POINTER: u64 = 17;

    pub const ENDLESS_ARRAY: u64 = 18;

    pub const ARRAYLIKE: u64 = 19;

    pub const STRUCT: u64 = 20;

    pub const WORD: u64 = 21;

    pub const UNRESOLVED_STRUCT_OR_WORD: u64 = 22;

    pub const POINTER: u64 = 23;

    pub const VIEW: u64 = 24;

    // No kind: what stands for the outer kind where there is no layer.
    pub const NONE: u64 = 25;
}
