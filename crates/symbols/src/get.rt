ghost use Rattle.std.specs.Prelude.{◌≡◌};
ghost use Rattle.symbol_get.specs.Get.{Tells};
ghost use Rattle.symbols.specs.Symbols as symbols;

use symbol_columns::{Column, Symbol, Table};
use symbol_get::{get_among, type_among};
use symbol_lent::gather;
use write_answer::Answer;

// What a lent table has under a name.
pub fn get_symbol(
    table: &[Symbol],
    store: &[u64],
    id: u32,
    authority: bool,
    found: &mut u64,
) -> Answer
    ensures { Tells (symbols.get id authority table.now store.now)
        result found.old found.new }
{
    let mut columns = [0u64; Column::WORDS];
    gather(table, &mut columns);
    let table = Table {
        columns: &columns,
        count: table.len(),
        store,
    };
    get_among(&table, id, authority, found)
}

// The type that a lent table has under a name, as the part of the store that holds it.
pub fn get_type<'a>(table: &[Symbol], store: &'a [u64], id: u32) -> &'a [u64]
    ensures { result.now ≡ symbols.get_type id table.now store.now }
{
    let mut columns = [0u64; Column::WORDS];
    gather(table, &mut columns);
    let table = Table {
        columns: &columns,
        count: table.len(),
        store,
    };
    type_among(&table, id)
}
