// A step's mark. Of an Element: whether the array is endless. Of an Autodeslice: by view, by pointer, or the length. Of a
// Member: whether it has an offset. Constants and no enum, since C lends steps as words.
#[derive(Clone, Copy)]
pub struct Mark(pub u64);

impl Mark {
    pub const UNKNOWN: u64 = 0;

    pub const NO: u64 = 1;

    pub const YES: u64 = 2;

    pub const BY_VIEW: u64 = 0;

    pub const BY_POINTER: u64 = 1;

    pub const BY_LENGTH: u64 = 2;

    pub const NO_OFFSET: u64 = 0;

    pub const OFFSET: u64 = 1;
}
