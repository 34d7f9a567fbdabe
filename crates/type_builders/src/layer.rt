ghost use Rattle.std.specs.Prelude.{◌≡◌};
ghost use Rattle.type_numbers.specs.Kind as of-kind;
ghost use Rattle.type_numbers.specs.AsCoded.{words};

use type_numbers::Kind;

// The functions build a layer: its three words.
#[derive(Clone, Copy)]
pub struct Layer;

impl Layer {
    // A layer of a kind that has neither a name nor a number, which are most; or with both 0.
    pub fn plain(kind: u64) -> [u64; 3]
        ensures { result ≡ words kind 0 0 }
    {
        [kind, 0, 0]
    }

    pub fn array(length: u64) -> [u64; 3]
        ensures { result ≡ words of-kind.array 0 length }
    {
        [Kind::ARRAY, 0, length]
    }

    pub fn array_with_named_length(name: u32) -> [u64; 3]
        ensures { result ≡ words of-kind.array_with_named_length name 0 }
    {
        [Kind::ARRAY_WITH_NAMED_LENGTH, u64::from(name), 0]
    }

    pub fn structure(name: u32) -> [u64; 3]
        ensures { result ≡ words of-kind.struct name 0 }
    {
        [Kind::STRUCT, u64::from(name), 0]
    }

    pub fn word(name: u32, size: u64) -> [u64; 3]
        ensures { result ≡ words of-kind.word name size }
    {
        [Kind::WORD, u64::from(name), size]
    }

    pub fn named_struct_or_word(name: u32) -> [u64; 3]
        ensures { result ≡ words of-kind.unresolved_struct_or_word name 1 }
    {
        [Kind::UNRESOLVED_STRUCT_OR_WORD, u64::from(name), 1]
    }
}
