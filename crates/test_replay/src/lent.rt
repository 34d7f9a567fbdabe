ghost use Rattle.std.specs.Prelude.{◌≤◌};

use crate::runs::Reader;
use symbol_columns::{Column, Columns, Symbol, Table};
use type_numbers::Limit;
use write_words::write_words;

// The words of a run.
const RUN: usize = 640;

// What stands in a lent word before the call; in the word i of a run, i more.
pub(crate) const BEFORE: u64 = 7738715178780416602;

// A run that nothing was written to.
pub(crate) fn blank() -> [u64; RUN] {
    let mut words = [0; RUN];
    for (i, word) in words.iter_mut().enumerate() {
        *word = BEFORE + i as u64;
    }
    words
}

// What a run is to hold whose first words were written.
pub(crate) fn written(words: &[u64]) -> [u64; RUN] {
    let mut all = blank();
    write_words(&mut all, words);
    all
}

// How many words of a run are lent: so many, or all.
pub(crate) fn room(count: u64) -> usize
    ensures { result ≤ 640 }
{
    RUN.min(count as usize)
}

// The six fields of a record, as words.
#[derive(Clone, Copy)]
pub(crate) struct Fields(pub [u64; 6]);

impl From<Symbol> for Fields {
    fn from(s: Symbol) -> Fields {
        let (id, authority) = (u64::from(s.id), u64::from(s.authority));
        Fields([id, authority, s.place, s.state, s.layers, s.mark])
    }
}

impl From<Fields> for Symbol {
    fn from(fields: Fields) -> Symbol {
        let [id, authority, place, state, layers, mark] = fields.0;
        Symbol {
            id: u32::try_from(id).unwrap_or(0),
            authority: authority == 1,
            place,
            state,
            layers,
            mark,
        }
    }
}

// A table as it is lent: how many records it has, at most eight, their fields in columns, and the store, the words of slot k
// from 48 k on.
#[derive(Clone, Copy, PartialEq, Eq)]
pub(crate) struct Lent {
    pub records: usize,
    pub columns: Columns,
    pub store: [u64; RUN],
}

impl Lent {
    // The table, with so many words of the store.
    pub(crate) fn table(&self, words: u64) -> Table<'_, '_> {
        Table {
            columns: &self.columns,
            count: self.records,
            store: &self.store[..room(words)],
        }
    }

    // Puts a record's fields into their columns.
    pub(crate) fn put(&mut self, slot: usize, fields: Fields) {
        for (column, field) in self.columns.chunks_exact_mut(Limit::RECORDS).zip(fields.0) {
            if let Some(word) = column.get_mut(slot) {
                *word = field;
            }
        }
    }

    // Lays a type's words into a slot, where they fit.
    pub(crate) fn lay(&mut self, slot: usize, words: &[u64]) {
        if slot < 8 {
            write_words(&mut self.store[slot * Limit::SLOT_WORDS..], words);
        }
    }
}

// Of a table, given by its count of records and of each its six fields and the run of its words.
impl From<&[u64]> for Lent {
    fn from(table: &[u64]) -> Lent {
        let mut table = Reader { rest: table };
        let mut lent = Lent {
            records: table.word().min(8) as usize,
            columns: [0; Column::WORDS],
            store: blank(),
        };
        for slot in 0..lent.records {
            lent.put(slot, Fields(table.array()));
            lent.lay(slot, table.run());
        }
        lent
    }
}
