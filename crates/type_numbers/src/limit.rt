// The limits of the rules, and the room that what they allow takes.
#[derive(Clone, Copy)]
pub struct Limit(pub u64);

impl Limit {
    // The most layers of a type, and their words.
    pub const LAYERS: u64 = 16;

    pub const TYPE_WORDS: usize = 48;

    // The largest name, and the largest handle of a step: a u32.
    pub const NAME: u64 = 4294967295;

    // The most records of a table, and the words of a slot of its store.
    pub const RECORDS: usize = 128;

    pub const SLOT_WORDS: usize = 48;

    // The most asked steps and the most rounds of a plan, and the words of the longest one: two steps for each round and 16
    // more, of four words each.
    pub const ASKED: u64 = 32;

    pub const ROUNDS: u64 = 64;

    pub const PLAN_WORDS: usize = 576;

    // The most steps that the walker takes.
    pub const WALKED: u64 = 128;

    // The most types of a sheet, the words and the bytes of the longest one, and the room for what `pairs` prints of it.
    pub const SHEET_TYPES: u64 = 32;

    pub const SHEET_WORDS: usize = 1569;

    pub const SHEET_BYTES: usize = 12552;

    pub const PAIRS_BYTES: usize = 18494;
}
