use type_numbers::Limit;

// Where each column of a table starts; the ids stand first.
#[derive(Clone, Copy)]
pub struct Column(pub usize);

impl Column {
    pub const AUTHORITY: usize = Limit::RECORDS;

    pub const PLACE: usize = 2 * Limit::RECORDS;

    pub const STATE: usize = 3 * Limit::RECORDS;

    pub const LAYERS: usize = 4 * Limit::RECORDS;

    pub const MARK: usize = 5 * Limit::RECORDS;

    // All six.
    pub const WORDS: usize = 6 * Limit::RECORDS;
}

// The records of a table in six columns of words, one for each field, so that ids and states are searched side by side.
// What `row`, `put_row` and `gather` promise holds them.
pub type Columns = [u64; Column::WORDS];
