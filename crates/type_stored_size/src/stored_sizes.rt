ghost use Rattle.std.specs.Prelude.{◌≡◌, ◌≤◌};
ghost use Rattle.type_layers.specs.Layers.{layers};
ghost use Rattle.type_layers.specs.Answer.{of_result, of_found};
ghost use Rattle.type_stored_size.specs.StoredSize.{width_answer, has_one_width, product, stored_size, stored_size_answer};

use type_first_refusal::check_type;
use type_layers::{Refused, is_slice};
use type_numbers::{Kind, Refusal};
use type_size_and_depth::known_size;

// The bytes of a pointer on the small target.
const SMALL: u64 = 4;

// The bytes of a pointer elsewhere.
const LARGE: u64 = 8;

// The size of so many elements.
fn product(length: u64, size: u64) -> Result<u64, Refused>
    ensures { of_result result ≡ product length size }
{
    length.checked_mul(size).ok_or(Refusal::SizeTooLarge.into())
}

// Whether a kind has one width.
fn has_one_width(k: u64) -> bool
    ensures { result ≡ has_one_width k }
{
    matches!(k, Kind::USIZE | Kind::POINTER | Kind::VIEW)
}

// The stored size, with pointers of so many bytes; of no layer none.
#[tactic(auto, using(crate::proofs::Measured::measured))]
fn stored(a: &[u64], width: u64) -> Result<Option<u64>, Refused>
    requires { width ≤ 8 }
    ensures { of_found result ≡ stored_size width (layers a.now) }
{
    match a {
        [Kind::ARRAY, _, length, inside @ ..] => match stored(inside, width)? {
            Some(size) => Ok(Some(product(*length, size)?)),
            None => Ok(None),
        },
        [k, _, _, ..] if has_one_width(*k) => Ok(Some(width)),
        [k, _, _, ..] if is_slice(*k) => Ok(Some(2 * width)),
        [_, _, _, ..] => Ok(known_size(a)),
        _ => Ok(None),
    }
}

// The width, or the refusal of another.
fn check_width(width: u64) -> Result<u64, Refused>
    ensures { of_result result ≡ width_answer width }
{
    match width {
        SMALL | LARGE => Ok(width),
        _ => Err(Refusal::BadRequest.into()),
    }
}

// The stored size with pointers of so many bytes, for any words and any width.
#[tactic(auto, unfolding(crate::specs::StoredSize::stored_size_answer))]
pub fn stored_size(a: &[u64], width: u64) -> Result<Option<u64>, Refused>
    ensures { of_found result ≡ stored_size_answer width a.now }
{
    check_type(a)?;
    let width = check_width(width)?;
    stored(a, width)
}
