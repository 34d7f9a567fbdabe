ghost use Rattle.std.specs.Prelude.{◌≡◌};
ghost use Rattle.symbol_lent.specs.AsCoded.{gathered_into};

use symbol_columns::{Columns, Symbol, put_row};
use type_numbers::Limit;

// Writes a table into its columns: ids, authorities, places, states, layer counts, marks, 128 words each. A table of more
// records has none, and nothing is written.
#[tactic(auto, unfolding(crate::specs::AsCoded::gathered_into, crate::specs::AsCoded::rows_into))]
pub fn gather(table: &[Symbol], flat: &mut Columns)
    ensures { flat.new ≡ gathered_into flat.old table.now }
{
    if table.len() > Limit::RECORDS {
        return;
    }
    for (i, &s) in table.iter().enumerate() {
        put_row(flat, i, s);
    }
}
