ghost use Rattle.std.specs.Prelude.{◌≡◌, Ok};
ghost use Rattle.type_layers.specs.Layers.{layers};
ghost use Rattle.type_layers.specs.Answer.{of_found};
ghost use Rattle.type_size_and_depth.specs.Known.{known_of, known_size, known_size_answer};

use type_first_refusal::check_type;
use type_layers::Refused;
use type_numbers::Kind;

// The known size of a type by the kind and the number of its outer layer.
#[tactic(auto, unfolding(crate::specs::Known::known_of))]
fn known_of(k: u64, number: u64) -> Option<u64>
    ensures { of_found (Ok result) ≡ known_of k number }
{
    match k {
        Kind::INT8 | Kind::UINT8 | Kind::CHAR8 | Kind::BOOL => Some(1),
        Kind::INT16 | Kind::UINT16 => Some(2),
        Kind::INT32 | Kind::UINT32 => Some(4),
        Kind::INT64 | Kind::UINT64 => Some(8),
        Kind::INT128 | Kind::UINT128 => Some(16),
        Kind::WORD => Some(number),
        _ => None,
    }
}

// The known size; of no layer none.
#[tactic(auto, using(crate::proofs::KnownSizes::known))]
pub fn known_size(a: &[u64]) -> Option<u64>
    ensures { of_found (Ok result) ≡ known_size (layers a.now) }
{
    match a {
        [kind, _, number, ..] => known_of(*kind, *number),
        _ => None,
    }
}

// The known size, for any words.
#[tactic(auto, unfolding(crate::specs::Known::known_size_answer))]
pub fn known_size_in_bytes_as_word_member(a: &[u64]) -> Result<Option<u64>, Refused>
    ensures { of_found result ≡ known_size_answer a.now }
{
    check_type(a)?;
    Ok(known_size(a))
}
