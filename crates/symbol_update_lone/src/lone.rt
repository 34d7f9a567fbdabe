ghost use Rattle.std.specs.Prelude.{◌≡◌};
ghost use Rattle.symbol_update.specs.AsCoded.{told};
ghost use Rattle.symbol_update_lone.specs.Lone as rules;

use symbol_columns::{Identifier, Symbol, stored_words};
use symbol_update::update;
use type_checks::is_type;
use type_first_refusal::check_type;
use type_layers::Refused;
use type_numbers::{Effect, Limit, Refusal, State};
use write_answer::{Answer, accepted};

// Whether a taken record with its words is a table of one that is in order.
#[tactic(auto, using(crate::proofs::Alone::miscounted, crate::proofs::Alone::poisoned_fits, crate::proofs::Alone::not_taken, crate::proofs::Alone::typed_fits))]
fn in_order(symbol: Symbol, words: &[u64]) -> bool
    ensures { result ≡ rules.lone_in_order symbol words.now }
{
    words.len() == Limit::SLOT_WORDS
        && match symbol.state {
            State::POISONED => true,
            State::TYPED => is_type(stored_words(words, symbol.layers)),
            _ => false,
        }
}

// Updates a record that stands alone, with its 48 words.
#[tactic(auto, unfolding(crate::specs::Lone::lone_updated, crate::specs::Lone::lone_words_after, crate::specs::Lone::lone_check))]
pub fn update_lone(
    symbol: &mut Symbol,
    words: &mut [u64],
    name: Identifier,
    offered: &[u64],
) -> Result<Effect, Refused>
    ensures answer { told result
        ≡ (rules.lone_updated symbol.old words.old name.id name.authority name.place offered.now).answer }
    ensures recorded { symbol.new
        ≡ (rules.lone_updated symbol.old words.old name.id name.authority name.place offered.now).symbol }
    ensures written { words.new ≡ rules.lone_words_after symbol.old words.old name.authority offered.now }
{
    check_type(offered)?;
    if !in_order(*symbol, words) {
        return Err(Refusal::TableNotInOrder.into());
    }
    update(symbol, words, name, offered)
}

// The same, answered as C has it. Where nothing changes nothing is stored.
pub fn do_update_symbol(
    symbol: &mut Symbol,
    words: &mut [u64],
    name: Identifier,
    offered: &[u64],
) -> Answer
    ensures { rules.LoneBecomes
        symbol.old words.old name.id name.authority name.place offered.now
        result symbol.new words.new }
{
    match update_lone(symbol, words, name, offered) {
        Ok(effect) => accepted(effect.into()),
        Err(e) => e.into(),
    }
}
