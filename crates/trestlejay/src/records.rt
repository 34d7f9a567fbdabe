ghost use Rattle.std.specs.Prelude.{[]};
ghost use Rattle.symbol_operations.specs.Act as act;
ghost use Rattle.symbol_operations.specs.Operation.{put_nothing, acts};
ghost use Rattle.symbol_change.specs.Change as changes;
ghost use Rattle.symbol_get.specs.Get as gets;
ghost use Rattle.symbols.specs.Symbols as symbols;

use symbol_columns::{Identifier, Symbol};
use symbol_operations::{Declared, Offer};
use symbols::{forward_declare_symbol, get_symbol, poison_symbol, put_symbol};
use write_answer::Answer;

pub fn tj_update_symbol(
    symbol: &mut Symbol,
    words: &mut [u64],
    id: u32,
    authority: bool,
    place: u64,
    offered: &[u64],
) -> Answer
    ensures { symbols.UpdatesAlone
        symbol.old words.old id authority place offered.now
        result symbol.new words.new }
{
    let name = Identifier {
        id,
        authority,
        place,
    };
    symbol_update_lone::do_update_symbol(symbol, words, name, offered)
}

pub fn tj_put_nothing(
    table: &mut [Symbol],
    store: &mut [u64],
    id: u32,
    authority: bool,
    place: u64,
) -> Answer
    ensures { changes.Becomes
        (symbols.change put_nothing id authority place 0 [] table.old store.old)
        result table.new store.new }
{
    let name = Identifier {
        id,
        authority,
        place,
    };
    put_symbol(table, store, Offer::Nothing, name, 0, &[])
}

pub fn tj_put_type(
    table: &mut [Symbol],
    store: &mut [u64],
    id: u32,
    authority: bool,
    place: u64,
    offered: &[u64],
) -> Answer
    ensures { changes.Becomes
        (symbols.change (acts act.put_type) id authority place 0 offered.now table.old store.old)
        result table.new store.new }
{
    let name = Identifier {
        id,
        authority,
        place,
    };
    put_symbol(table, store, Offer::Type, name, 0, offered)
}

pub fn tj_put_poison(
    table: &mut [Symbol],
    store: &mut [u64],
    id: u32,
    authority: bool,
    place: u64,
    mark: u64,
) -> Answer
    ensures { changes.Becomes
        (symbols.poison id authority place mark table.old store.old)
        result table.new store.new }
{
    let name = Identifier {
        id,
        authority,
        place,
    };
    poison_symbol(table, store, name, mark)
}

pub fn tj_forward_declare_type(
    table: &mut [Symbol],
    store: &mut [u64],
    id: u32,
    authority: bool,
    place: u64,
    offered: &[u64],
) -> Answer
    ensures { changes.Becomes
        (symbols.change (acts act.forward_type) id authority place 0 offered.now table.old store.old)
        result table.new store.new }
{
    let name = Identifier {
        id,
        authority,
        place,
    };
    forward_declare_symbol(table, store, Declared::Type, name, 0, offered)
}

pub fn tj_forward_declare_poison(
    table: &mut [Symbol],
    store: &mut [u64],
    id: u32,
    authority: bool,
    place: u64,
    mark: u64,
) -> Answer
    ensures { changes.Becomes
        (symbols.change (acts act.forward_poison) id authority place mark [] table.old store.old)
        result table.new store.new }
{
    let name = Identifier {
        id,
        authority,
        place,
    };
    forward_declare_symbol(table, store, Declared::Poison, name, mark, &[])
}

pub fn tj_get_symbol(
    table: &[Symbol],
    store: &[u64],
    id: u32,
    authority: bool,
    found: &mut u64,
) -> Answer
    ensures { gets.Tells (symbols.get id authority table.now store.now)
        result found.old found.new }
{
    get_symbol(table, store, id, authority, found)
}
