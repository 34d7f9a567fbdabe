ghost use Rattle.symbol_change.specs.Change.{Becomes};
ghost use Rattle.symbols.specs.Symbols as symbols;

use crate::change::change_symbol;
use symbol_columns::{Identifier, Symbol};
use symbol_operations::{Declared, Offer, Operation};
use write_answer::Answer;

// Puts nothing, poison or a type under a name.
pub fn put_symbol(
    table: &mut [Symbol],
    store: &mut [u64],
    offer: Offer,
    name: Identifier,
    mark: u64,
    offered: &[u64],
) -> Answer
    ensures { Becomes
        (symbols.put offer name.id name.authority name.place mark offered.now table.old store.old)
        result table.new store.new }
{
    change_symbol(table, store, offer.into(), name, mark, offered)
}

// Poisons what stands under a name.
pub fn poison_symbol(table: &mut [Symbol], store: &mut [u64], name: Identifier, mark: u64) -> Answer
    ensures { Becomes
        (symbols.poison name.id name.authority name.place mark table.old store.old)
        result table.new store.new }
{
    change_symbol(table, store, Operation::PutPoison, name, mark, &[])
}

// Declares poison or a type under a name, whatever stands there.
pub fn forward_declare_symbol(
    table: &mut [Symbol],
    store: &mut [u64],
    declared: Declared,
    name: Identifier,
    mark: u64,
    offered: &[u64],
) -> Answer
    ensures { Becomes
        (symbols.forward_declare declared
        name.id name.authority name.place mark offered.now table.old store.old)
        result table.new store.new }
{
    change_symbol(table, store, declared.into(), name, mark, offered)
}
