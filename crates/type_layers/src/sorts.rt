ghost use Rattle.std.specs.Prelude.{◌≡◌};
ghost use Rattle.type_layers.specs.Layers as rules;

use type_numbers::Kind;

// The kinds that hold an inner type, by their sort.
pub fn is_array(k: u64) -> bool
    ensures { result ≡ rules.is_array k }
{
    matches!(
        k,
        Kind::ARRAY | Kind::ARRAY_WITH_NAMED_LENGTH | Kind::ENDLESS_ARRAY | Kind::ARRAYLIKE
    )
}

pub fn is_slice(k: u64) -> bool
    ensures { result ≡ rules.is_slice k }
{
    matches!(k, Kind::SLICE | Kind::SLICE_POINTER)
}

pub fn is_reference(k: u64) -> bool
    ensures { result ≡ rules.is_reference k }
{
    matches!(k, Kind::POINTER | Kind::VIEW)
}

// Whether a layer of this kind holds an inner type.
pub fn holds_inner(k: u64) -> bool
    ensures { result ≡ rules.holds_inner k }
{
    is_array(k) | is_slice(k) | is_reference(k)
}
