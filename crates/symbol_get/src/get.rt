ghost use Rattle.std.specs.Prelude.{◌≡◌};
ghost use Rattle.symbol_columns.specs.Table.{records};
ghost use Rattle.symbol_get.specs.Get as rules;
ghost use Rattle.symbol_get.specs.AsCoded as as-coded;

use symbol_columns::{Table, row, slot_words, stored_words};
use symbol_order::in_order;
use symbol_search::slot_of;
use type_layers::Refused;
use type_numbers::{Refusal, State};
use write_answer::{Answer, accepted};

// What stands under a name: nothing, a type in a slot, or poison with its mark.
#[derive(Clone, Copy, Debug, PartialEq, Eq)]
pub enum Found {
    Absent,
    Typed(usize),
    Poisoned(u64),
}

#[tactic(auto, using(crate::proofs::Looking::get_refused, crate::proofs::Looking::get_absent, crate::proofs::Looking::get_typed, crate::proofs::Looking::get_marked, crate::proofs::Looking::get_plain))]
fn look(table: &Table, id: u32, authority: bool) -> Result<Found, Refused>
    ensures { as-coded.of_got result ≡ rules.got id authority (records table.now) table.now.store.now }
{
    if !in_order(table) {
        return Err(Refusal::TableNotInOrder.into());
    }
    let Some(at) = slot_of(table, id) else {
        return Ok(Found::Absent);
    };
    let s = row(table.columns, at, id);
    if s.state == State::TYPED {
        Ok(Found::Typed(at))
    } else {
        Ok(Found::Poisoned(if authority { s.mark } else { 0 }))
    }
}

// As C has it: the slot or the mark goes where it was lent; without one, what stood there stays.
fn tell(got: Result<Found, Refused>, found: &mut u64) -> Answer
    ensures answer { result ≡ rules.told (as-coded.of_got got) }
    ensures written { found.new ≡ rules.found_after (as-coded.of_got got) found.old }
{
    match got {
        Ok(Found::Absent) => accepted(0),
        Ok(Found::Typed(at)) => {
            *found = at as u64;
            accepted(State::TYPED)
        }
        Ok(Found::Poisoned(mark)) => {
            *found = mark;
            accepted(State::POISONED)
        }
        Err(e) => e.into(),
    }
}

// What a table that is given by its columns has under a name.
pub fn get_among(table: &Table, id: u32, authority: bool, found: &mut u64) -> Answer
    ensures { rules.Tells (rules.got id authority (records table.now) table.now.store.now)
        result found.old found.new }
{
    tell(look(table, id, authority), found)
}

// The type that it has under a name, as the part of the store that holds it.
pub fn type_among<'s>(table: &Table<'_, 's>, id: u32) -> &'s [u64]
    ensures { result.now ≡ rules.type_of id (records table.now) table.now.store.now }
{
    let Table { columns, store, .. } = *table;
    match look(table, id, true) {
        Ok(Found::Typed(at)) => {
            let s = row(columns, at, id);
            stored_words(slot_words(store, at), s.layers)
        }
        Ok(Found::Absent | Found::Poisoned(_)) | Err(_) => &store[..0],
    }
}
