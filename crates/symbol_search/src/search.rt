ghost use Rattle.std.specs.Prelude.{◌≡◌};
ghost use Rattle.symbol_search.specs.Search.{among};
ghost use Rattle.symbol_search.specs.AsCoded.{free_in, slot_in};

use symbol_columns::{Column, Table};
use type_numbers::{Limit, State};

// The first record that is free.
#[tactic(auto, using(crate::proofs::Searching::free_many))]
pub fn first_free(table: &Table) -> Option<usize>
    ensures { result ≡ among table.now.count (free_in table.now.columns.now table.now.count) }
{
    let Table { columns, count, .. } = *table;
    if count > Limit::RECORDS {
        return None;
    }
    let states = &columns[Column::STATE..Column::STATE + count];
    states.iter().position(|&state| state == State::FREE)
}

// The first record that is taken and has the id.
#[tactic(auto, using(crate::proofs::Searching::slot_many))]
pub fn slot_with(table: &Table, wanted: u64) -> Option<usize>
    ensures { result ≡ among table.now.count (slot_in table.now.columns.now table.now.count wanted) }
{
    let Table { columns, count, .. } = *table;
    if count > Limit::RECORDS {
        return None;
    }
    let ids = &columns[..count];
    let states = &columns[Column::STATE..Column::STATE + count];
    ids.iter()
        .zip(states)
        .position(|(&id, &state)| id == wanted && state != State::FREE)
}

// The same, of an id as a record has it.
pub fn slot_of(table: &Table, id: u32) -> Option<usize>
    ensures { result ≡ among table.now.count (slot_in table.now.columns.now table.now.count id) }
{
    slot_with(table, u64::from(id))
}
