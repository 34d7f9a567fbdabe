ghost use Rattle.std.specs.Prelude.{◌≡◌, Ok};
ghost use Rattle.type_numbers.specs.Effect as effects;
ghost use Rattle.symbol_columns.specs.AsCoded.{read_from};
ghost use Rattle.symbol_columns.specs.Table.{records};
ghost use Rattle.write_answer.specs.Flat.{accepted};
ghost use Rattle.symbol_operations.specs.Operation.{acts};
ghost use Rattle.symbol_operations.specs.AsCoded.{of_act, of_operation};
ghost use Rattle.symbol_change.specs.Change as rules;
ghost use Rattle.symbol_change.specs.AsCoded as as-coded;

use symbol_columns::{Columns, Identifier, Symbol, Table, row};
use symbol_operations::{Act, Operation};
use symbol_order::in_order;
use symbol_record::{fill, overwrite};
use symbol_slot::{Way, way_of};
use type_layers::Refused;
use type_numbers::{Effect, Limit, Refusal};

// What was done, and the record to store, if any, with its slot.
#[derive(Clone, Copy)]
pub struct Change {
    pub effect: Effect,
    pub stored: Option<(usize, Symbol)>,
}

// What became of the record that was found.
fn if_changed(slot: usize, symbol: Symbol, effect: Effect) -> Change
    ensures { as-coded.of_change (Ok result)
        ≡ as-coded.if_changed slot symbol (accepted (effects.number_of effect)) }
{
    let stored = match effect {
        Effect::Kept => None,
        _ => Some((slot, symbol)),
    };
    Change { effect, stored }
}

// A put with nothing: the table is judged, and that is all.
fn keep(table: &Table) -> Result<Change, Refused>
    ensures { as-coded.of_change result
        ≡ as-coded.nowhere (rules.nothing_put (records table.now) table.now.store.now) }
{
    if !in_order(table) {
        return Err(Refusal::TableNotInOrder.into());
    }
    Ok(Change {
        effect: Effect::Kept,
        stored: None,
    })
}

// An act in a table that is given by its columns. The slot's part of the store is lent on, and written there.
#[tactic(auto, using(crate::proofs::Decided::found_below, crate::proofs::Decided::found_part, crate::proofs::Decided::new_below, crate::proofs::Decided::new_part))]
fn act_in(
    act: Act,
    columns: &Columns,
    count: usize,
    store: &mut [u64],
    name: Identifier,
    mark: u64,
    offered: &[u64],
) -> Result<Change, Refused>
    ensures { as-coded.Chooses
        (acts (of_act act)) name.id name.authority name.place mark offered.now
        (read_from columns.now 0 count) store.old
        result store.new }
{
    let table = Table {
        columns,
        count,
        store,
    };
    match way_of(act, &table, name.id, offered)? {
        Way::Found(at) => {
            let from = at * Limit::SLOT_WORDS;
            let slot = &mut store[from..from + Limit::SLOT_WORDS];
            let mut symbol = row(columns, at, name.id);
            let effect = overwrite(act, &mut symbol, slot, name, mark, offered)?;
            Ok(if_changed(at, symbol, effect))
        }
        Way::Free(at) => {
            let from = at * Limit::SLOT_WORDS;
            let slot = &mut store[from..from + Limit::SLOT_WORDS];
            let symbol = fill(act, slot, name, mark, offered);
            Ok(Change {
                effect: Effect::Inserted,
                stored: Some((at, symbol)),
            })
        }
    }
}

// The change of a table that is given by its columns.
#[tactic(auto, unfolding(crate::specs::AsCoded::change_of, crate::specs::AsCoded::store_of, crate::specs::Change::outcome))]
pub fn choose(
    columns: &Columns,
    count: usize,
    store: &mut [u64],
    operation: Operation,
    name: Identifier,
    mark: u64,
    offered: &[u64],
) -> Result<Change, Refused>
    ensures { as-coded.Chooses
        (of_operation operation) name.id name.authority name.place mark offered.now
        (read_from columns.now 0 count) store.old
        result store.new }
{
    match operation.act() {
        Some(act) => act_in(act, columns, count, store, name, mark, offered),
        None => keep(&Table {
            columns,
            count,
            store,
        }),
    }
}
