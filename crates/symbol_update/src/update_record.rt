ghost use Rattle.std.specs.Prelude.{◌≡◌};
ghost use Rattle.symbol_update.specs.Update as rules;
ghost use Rattle.symbol_update.specs.AsCoded.{told};

use symbol_columns::{Identifier, Symbol, stored_words};
use symbol_update_rule::{Line, decide};
use type_layers::Refused;
use type_numbers::{Effect, Refusal, State};
use write_words::write_words;

// A record of a type that was written.
pub fn typed(name: Identifier, offered: &[u64]) -> Symbol
    ensures { result ≡ rules.typed name.id name.authority name.place offered.now }
{
    let Identifier {
        id,
        authority,
        place,
    } = name;
    Symbol {
        id,
        authority,
        place,
        state: State::TYPED,
        layers: (offered.len() / 3) as u64,
        mark: 0,
    }
}

// Updates a record whose words are the first of those lent.
#[tactic(auto, unfolding(crate::specs::Update::updated, crate::specs::Update::words_after))]
pub fn update(
    symbol: &mut Symbol,
    words: &mut [u64],
    name: Identifier,
    offered: &[u64],
) -> Result<Effect, Refused>
    ensures answer { told result
        ≡ (rules.updated symbol.old words.old name.id name.authority name.place offered.now).answer }
    ensures recorded { symbol.new
        ≡ (rules.updated symbol.old words.old name.id name.authority name.place offered.now).symbol }
    ensures written { words.new ≡ rules.words_after symbol.old words.old name.authority offered.now }
{
    let s = *symbol;
    let line = decide(
        s.state == State::POISONED,
        s.authority,
        name.authority,
        stored_words(words, s.layers),
        offered,
    );
    match line {
        Line::Poisoned | Line::Kept => Ok(Effect::Kept),
        Line::IllFormed => Err(Refusal::IllFormed.into()),
        Line::Conflicting => Err(Refusal::Conflict.into()),
        Line::TypeReplaced => {
            write_words(words, offered);
            let kept = Identifier {
                id: s.id,
                authority: s.authority,
                place: s.place,
            };
            *symbol = typed(kept, offered);
            Ok(Effect::TypeReplaced)
        }
        Line::BothReplaced => {
            write_words(words, offered);
            *symbol = typed(name, offered);
            Ok(Effect::BothReplaced)
        }
    }
}
