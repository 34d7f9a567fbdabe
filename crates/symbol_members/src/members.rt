ghost use Rattle.std.specs.Prelude.{◌≡◌};
ghost use Rattle.symbol_members.specs.AsCoded.{member_in};

use symbol_columns::{Column, Table, slot_words, stored_words};
use symbol_search::slot_with;
use type_numbers::State;

// The words of the type that is stored under an id; none where it is absent or poisoned.
#[tactic(auto, using(crate::proofs::Storing::row_there))]
pub fn member<'s>(table: &Table<'_, 's>, id: u64) -> &'s [u64]
    ensures { result.now ≡ member_in table.now.columns.now table.now.count table.now.store.now id }
{
    let Table { columns, store, .. } = *table;
    match slot_with(table, id) {
        Some(k) if columns[k + Column::STATE] == State::TYPED => {
            stored_words(slot_words(store, k), columns[k + Column::LAYERS])
        }
        _ => &store[..0],
    }
}
