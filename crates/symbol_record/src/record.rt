ghost use Rattle.std.specs.Prelude.{◌≡◌};
ghost use Rattle.symbol_operations.specs.AsCoded.{of_act};
ghost use Rattle.symbol_record.specs.Deed as rules;
ghost use Rattle.symbol_record.specs.AsCoded as as-coded;

use symbol_columns::{Identifier, Symbol};
use symbol_operations::Act;
use symbol_update::{typed, update};
use type_layers::Refused;
use type_numbers::{Effect, State};
use write_words::write_words;

fn poisoned(name: Identifier, mark: u64) -> Symbol
    ensures { result ≡ rules.poisoned name.id name.authority name.place mark }
{
    let Identifier {
        id,
        authority,
        place,
    } = name;
    Symbol {
        id,
        authority,
        place,
        state: State::POISONED,
        layers: 0,
        mark,
    }
}

// The record of a type, whose words are written, or of poison.
pub fn fill(act: Act, words: &mut [u64], name: Identifier, mark: u64, offered: &[u64]) -> Symbol
    ensures { (result ≡ rules.filled (of_act act) name.id name.authority name.place mark offered.now)
        × (words.new ≡ rules.filled_words (of_act act) offered.now words.old) }
{
    if act.offers_type() {
        write_words(words, offered);
        typed(name, offered)
    } else {
        poisoned(name, mark)
    }
}

// What an act does to a record that has the id, and to its words.
pub fn overwrite(
    act: Act,
    symbol: &mut Symbol,
    words: &mut [u64],
    name: Identifier,
    mark: u64,
    offered: &[u64],
) -> Result<Effect, Refused>
    ensures { as-coded.Does
        (rules.overwrites (of_act act)
        symbol.old words.old name.id name.authority name.place mark offered.now)
        result symbol.new words.new }
{
    let kept = Identifier {
        id: symbol.id,
        authority: symbol.authority,
        place: symbol.place,
    };
    match act {
        Act::PutPoison => *symbol = poisoned(kept, mark),
        Act::PutType => return update(symbol, words, name, offered),
        Act::ForwardPoison => *symbol = poisoned(name, mark),
        Act::ForwardType => {
            write_words(words, offered);
            *symbol = typed(name, offered);
        }
    }
    Ok(Effect::Overwritten)
}
