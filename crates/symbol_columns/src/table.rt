use crate::column::Columns;

// A table in columns, its first `count` rows, with the store of its types.
#[derive(Clone, Copy)]
pub struct Table<'c, 's> {
    pub columns: &'c Columns,
    pub count: usize,
    pub store: &'s [u64],
}
