ghost use Rattle.std.specs.Prelude.{◌≡◌, length};
ghost use Rattle.symbol_search.specs.Search.{among, slot_for};

use symbol_columns::Symbol;
use type_numbers::State;

// The first record of a table that is taken and has the id.
pub fn find_symbol(table: &[Symbol], id: u32) -> Option<usize>
    ensures { result ≡ among (length table.now) (slot_for id table.now) }
{
    table
        .iter()
        .position(|s| s.id == id && s.state != State::FREE)
}
