ghost use Rattle.std.specs.Prelude.{◌≡◌};
ghost use Rattle.type_layers.specs.Answer.{of_verdict};
ghost use Rattle.type_properties.specs.Properties as properties;

use type_first_refusal::check_type;
use type_layers::{Refused, outer};
use type_numbers::Kind;

// What the outer kind alone tells of a type.
#[derive(Clone, Copy, Debug, PartialEq, Eq)]
pub enum Property {
    Void,
    Integral,
    Signed,
    Bitfield,
    SlicePointer,
}

fn is_signed(k: u64) -> bool
    ensures { result ≡ properties.signed k }
{
    matches!(
        k,
        Kind::INT8 | Kind::INT16 | Kind::INT32 | Kind::INT64 | Kind::INT128
    )
}

fn is_bitfield(k: u64) -> bool
    ensures { result ≡ properties.bitfield k }
{
    matches!(
        k,
        Kind::UINT8 | Kind::UINT16 | Kind::UINT32 | Kind::UINT64 | Kind::UINT128
    )
}

fn is_integral(k: u64) -> bool
    ensures { result ≡ properties.integral k }
{
    is_signed(k) | is_bitfield(k) | (k == Kind::USIZE)
}

fn holds(property: Property, k: u64) -> bool
    ensures { result ≡ properties.holds property k }
{
    match property {
        Property::Void => k == Kind::VOID,
        Property::Integral => is_integral(k),
        Property::Signed => is_signed(k),
        Property::Bitfield => is_bitfield(k),
        Property::SlicePointer => k == Kind::SLICE_POINTER,
    }
}

// Whether any words are a type that has the property.
#[tactic(auto, unfolding(crate::specs::Properties::property_answer))]
pub fn has(property: Property, a: &[u64]) -> Result<bool, Refused>
    ensures { of_verdict result ≡ properties.property_answer property a.now }
{
    check_type(a)?;
    Ok(holds(property, outer(a)))
}
