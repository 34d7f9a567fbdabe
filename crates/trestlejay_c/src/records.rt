ghost use Rattle.std.specs.Prelude.{[]};
ghost use Rattle.symbol_operations.specs.Act as act;
ghost use Rattle.symbol_operations.specs.Operation.{put_nothing, acts};
ghost use Rattle.symbol_change.specs.Change as changes;
ghost use Rattle.symbol_get.specs.Get as gets;
ghost use Rattle.symbols.specs.Symbols as symbols;

use trestlejay::{Answer, Symbol};

#[unsafe(no_mangle)]
pub extern "C" fn tj_update_symbol(
    symbol: &mut Symbol,
    words: &mut [u64],
    id: u32,
    authority: bool,
    place: u64,
    offered: &[u64],
) -> Answer
    ensures { symbols.UpdatesAlone
        symbol.old words.old id authority place offered.now
        result symbol.new words.new }
{
    trestlejay::tj_update_symbol(symbol, words, id, authority, place, offered)
}

#[unsafe(no_mangle)]
pub extern "C" fn tj_put_nothing(
    table: &mut [Symbol],
    store: &mut [u64],
    id: u32,
    authority: bool,
    place: u64,
) -> Answer
    ensures { changes.Becomes
        (symbols.change put_nothing id authority place 0 [] table.old store.old)
        result table.new store.new }
{
    trestlejay::tj_put_nothing(table, store, id, authority, place)
}

#[unsafe(no_mangle)]
pub extern "C" fn tj_put_type(
    table: &mut [Symbol],
    store: &mut [u64],
    id: u32,
    authority: bool,
    place: u64,
    offered: &[u64],
) -> Answer
    ensures { changes.Becomes
        (symbols.change (acts act.put_type) id authority place 0 offered.now table.old store.old)
        result table.new store.new }
{
    trestlejay::tj_put_type(table, store, id, authority, place, offered)
}

#[unsafe(no_mangle)]
pub extern "C" fn tj_put_poison(
    table: &mut [Symbol],
    store: &mut [u64],
    id: u32,
    authority: bool,
    place: u64,
    mark: u64,
) -> Answer
    ensures { changes.Becomes
        (symbols.poison id authority place mark table.old store.old)
        result table.new store.new }
{
    trestlejay::tj_put_poison(table, store, id, authority, place, mark)
}

#[unsafe(no_mangle)]
pub extern "C" fn tj_forward_declare_type(
    table: &mut [Symbol],
    store: &mut [u64],
    id: u32,
    authority: bool,
    place: u64,
    offered: &[u64],
) -> Answer
    ensures { changes.Becomes
        (symbols.change (acts act.forward_type) id authority place 0 offered.now table.old store.old)
        result table.new store.new }
{
    trestlejay::tj_forward_declare_type(table, store, id, authority, place, offered)
}

#[unsafe(no_mangle)]
pub extern "C" fn tj_forward_declare_poison(
    table: &mut [Symbol],
    store: &mut [u64],
    id: u32,
    authority: bool,
    place: u64,
    mark: u64,
) -> Answer
    ensures { changes.Becomes
        (symbols.change (acts act.forward_poison) id authority place mark [] table.old store.old)
        result table.new store.new }
{
    trestlejay::tj_forward_declare_poison(table, store, id, authority, place, mark)
}

#[unsafe(no_mangle)]
pub extern "C" fn tj_get_symbol(
    table: &[Symbol],
    store: &[u64],
    id: u32,
    authority: bool,
    found: &mut u64,
) -> Answer
    ensures { gets.Tells (symbols.get id authority table.now store.now)
        result found.old found.new }
{
    trestlejay::tj_get_symbol(table, store, id, authority, found)
}
