ghost use Rattle.std.specs.Prelude.{◌≡◌, ◌≤◌, ◌<◌, get_or};
ghost use Rattle.type_numbers.specs.Limit as limit;
ghost use Rattle.symbol_columns.specs.AsCoded.{row_at, read_from};
ghost use Rattle.symbol_columns.specs.Table.{records};
ghost use Rattle.symbol_order.specs.Order as order;
ghost use Rattle.symbol_order.specs.AsCoded.{Noted, stands};

use symbol_columns::{Column, Columns, Table, stored_words};
use type_checks::is_type;
use type_numbers::{Limit, State};

// Whether one of the first k records has an id. No early exit, so that the ids are compared side by side.
#[tactic(auto, using(crate::proofs::Onward::id_none, crate::proofs::Onward::id_more))]
fn has_id(columns: &Columns, k: usize, id: u64) -> bool
    requires { k ≤ limit.records }
    ensures { result ≡ order.has_id id (read_from columns.now 0 k) }
{
    let mut hit = false;
    for &other in &columns[..k] {
        hit |= other == id;
    }
    hit
}

// Whether the id of row k is that of a row before. Their ids are noted, by what is left of them by 512: an id that is
// not noted is new, and only one that is noted has to be compared.
#[tactic(auto, using(crate::proofs::Onward::not_noted))]
fn repeats(columns: &Columns, k: usize, noted: &[bool; 512]) -> bool
    requires within { k < limit.records }
    requires before { Noted noted.now columns.now k }
    ensures { result ≡ order.has_id (get_or columns.now k 0) (read_from columns.now 0 k) }
{
    let id = columns[k];
    noted[(id % 512) as usize] && has_id(columns, k, id)
}

// Whether the words of a record pass the checks 1 to 3, if it is typed.
#[tactic(auto, unfolding(crate::specs::Order::passes))]
fn passes(state: u64, layers: u64, words: &[u64]) -> bool
    ensures { result ≡ order.passes state layers words.now }
{
    state != State::TYPED || is_type(stored_words(words, layers))
}

// Whether the record of row k can stand after those before it, one of which is free or none.
#[tactic(auto, unfolding(crate::specs::AsCoded::stands, symbol_columns::specs::AsCoded::row_at))]
fn stands_after(columns: &Columns, k: usize, noted: &[bool; 512], free: bool, words: &[u64]) -> bool
    requires within { k < limit.records }
    requires before { Noted noted.now columns.now k }
    ensures { result ≡ stands free (read_from columns.now 0 k) (row_at columns.now k) words.now }
{
    let state = columns[k + Column::STATE];
    match state {
        State::FREE => true,
        State::TYPED | State::POISONED => {
            !free
                && !repeats(columns, k, noted)
                && passes(state, columns[k + Column::LAYERS], words)
        }
        _ => false,
    }
}

// Whether a table is in order with its store. One pass, which ends at the first record that cannot stand after those
// before it.
#[tactic(auto, using(crate::proofs::Onward::too_many, crate::proofs::Onward::other_store, crate::proofs::Onward::start))]
pub fn in_order(table: &Table) -> bool
    ensures { result ≡ order.in_order (records table.now) table.now.store.now }
{
    let Table {
        columns,
        count,
        store,
    } = *table;
    if count > Limit::RECORDS || store.len() != count * Limit::SLOT_WORDS {
        return false;
    }
    let mut noted = [false; 512];
    let mut free = false;
    // By index: a row is of the columns and of the store.
    for k in 0..count {
        let at = k * Limit::SLOT_WORDS;
        if !stands_after(columns, k, &noted, free, &store[at..at + Limit::SLOT_WORDS]) {
            return false;
        }
        free = columns[k + Column::STATE] == State::FREE;
        noted[(columns[k] % 512) as usize] = true;
    }
    true
}
