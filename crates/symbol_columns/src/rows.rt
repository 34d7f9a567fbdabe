ghost use Rattle.std.specs.Prelude.{◌≡◌};
ghost use Rattle.symbol_columns.specs.AsCoded as rows;

use crate::column::{Column, Columns};
use crate::symbol::Symbol;
use type_numbers::{Limit, State};

// Writes a record's six words into the six columns, at its row, if there is one: ids, authorities, places, states, layer
// counts, marks, 128 words each.
#[tactic(auto, unfolding(crate::specs::AsCoded::put_row))]
pub fn put_row(flat: &mut Columns, i: usize, s: Symbol)
    ensures { flat.new ≡ rows.put_row flat.old i s }
{
    if i < Limit::RECORDS {
        flat[i] = u64::from(s.id);
        flat[i + Column::AUTHORITY] = u64::from(s.authority);
        flat[i + Column::PLACE] = s.place;
        flat[i + Column::STATE] = s.state;
        flat[i + Column::LAYERS] = s.layers;
        flat[i + Column::MARK] = s.mark;
    }
}

// The record of a row, under an id; past the last row, a free one.
#[tactic(auto, unfolding(crate::specs::AsCoded::row_under, crate::specs::AsCoded::row_at))]
pub fn row(flat: &Columns, i: usize, id: u32) -> Symbol
    ensures { result ≡ rows.row_under flat.now i id }
{
    if i < Limit::RECORDS {
        Symbol {
            id,
            authority: flat[i + Column::AUTHORITY] == 1,
            place: flat[i + Column::PLACE],
            state: flat[i + Column::STATE],
            layers: flat[i + Column::LAYERS],
            mark: flat[i + Column::MARK],
        }
    } else {
        Symbol {
            id,
            authority: false,
            place: 0,
            state: State::FREE,
            layers: 0,
            mark: 0,
        }
    }
}
