ghost use Rattle.std.specs.Prelude.{◌≡◌};
ghost use Rattle.symbol_columns.specs.Table.{records};
ghost use Rattle.symbol_operations.specs.AsCoded.{of_act};
ghost use Rattle.symbol_slot.specs.Slot as rules;
ghost use Rattle.symbol_slot.specs.AsCoded as as-coded;

use symbol_columns::Table;
use symbol_operations::Act;
use symbol_order::in_order;
use symbol_search::{first_free, slot_of};
use type_first_refusal::check_type;
use type_layers::Refused;
use type_numbers::Refusal;

// The record that an act is about: the one that has the id, or the first free one.
#[derive(Clone, Copy, Debug, PartialEq, Eq)]
pub enum Way {
    Found(usize),
    Free(usize),
}

#[tactic(auto, using(crate::proofs::Decided::out_of_order, crate::proofs::Decided::found_there, crate::proofs::Decided::room_there, crate::proofs::Decided::none_free))]
fn slot_for(table: &Table, id: u32) -> Result<Way, Refused>
    ensures { as-coded.of_way result ≡ rules.place_of id (records table.now) table.now.store.now }
{
    if !in_order(table) {
        return Err(Refusal::TableNotInOrder.into());
    }
    if let Some(at) = slot_of(table, id) {
        return Ok(Way::Found(at));
    }
    match first_free(table) {
        Some(free) => Ok(Way::Free(free)),
        None => Err(Refusal::TableFull.into()),
    }
}

// The refusals of the offered type come before those of the table.
#[tactic(auto, unfolding(crate::specs::Slot::way_of))]
pub fn way_of(act: Act, table: &Table, id: u32, offered: &[u64]) -> Result<Way, Refused>
    ensures { as-coded.of_way result
        ≡ rules.way_of (of_act act) id offered.now (records table.now) table.now.store.now }
{
    if act.offers_type() {
        check_type(offered)?;
    }
    slot_for(table, id)
}
