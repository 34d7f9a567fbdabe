ghost use Rattle.std.specs.Prelude.{◌≡◌};
ghost use Rattle.symbol_columns.specs.StoredWords.{slot_words, stored_words};

use type_numbers::Limit;

// The words of a slot, in the store itself; those of them that are there.
#[tactic(auto, using(crate::proofs::Storing::slot_cut))]
pub fn slot_words(store: &[u64], k: usize) -> &[u64]
    ensures { result.now ≡ slot_words store.now k }
{
    if k > store.len() / Limit::SLOT_WORDS {
        return &store[..0];
    }
    let rest = &store[k * Limit::SLOT_WORDS..];
    &rest[..rest.len().min(Limit::SLOT_WORDS)]
}

// The words of a stored type, which stand first in its slot; no words where they are not there.
#[tactic(auto, unfolding(crate::specs::StoredWords::stored_words))]
pub fn stored_words(words: &[u64], layers: u64) -> &[u64]
    ensures { result.now ≡ stored_words layers words.now }
{
    if layers > (words.len() / 3) as u64 {
        return &words[..0];
    }
    &words[..layers as usize * 3]
}
