ghost use Rattle.symbol_operations.specs.AsCoded.{of_operation};
ghost use Rattle.symbol_change.specs.Change.{Becomes};
ghost use Rattle.symbols.specs.Symbols as symbols;

use symbol_change::choose;
use symbol_columns::{Column, Identifier, Symbol};
use symbol_lent::gather;
use symbol_operations::Operation;
use write_answer::{Answer, accepted};

// Changes a lent table and its store. A type has no mark and poison no offered words: the one that is not asked for is
// not looked at.
pub fn change_symbol(
    table: &mut [Symbol],
    store: &mut [u64],
    operation: Operation,
    name: Identifier,
    mark: u64,
    offered: &[u64],
) -> Answer
    ensures { Becomes
        (symbols.change (of_operation operation)
        name.id name.authority name.place mark offered.now table.old store.old)
        result table.new store.new }
{
    let mut columns = [0u64; Column::WORDS];
    gather(table, &mut columns);
    match choose(&columns, table.len(), store, operation, name, mark, offered) {
        Ok(change) => {
            if let Some((slot, symbol)) = change.stored {
                table[slot] = symbol;
            }
            accepted(change.effect.into())
        }
        Err(e) => e.into(),
    }
}
