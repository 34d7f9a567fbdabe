ghost use Rattle.std.specs.Prelude.{◌≡◌};
ghost use Rattle.type_layers.specs.Layers.{layers};
ghost use Rattle.relation_declared.specs.Declared as rules;

use relation_equals::identical;
use type_numbers::Kind;

pub(crate) fn array_meets_arraylike(k: u64, l: u64) -> bool
    ensures { result ≡ rules.array_meets_arraylike k l }
{
    matches!(
        (k, l),
        (
            Kind::ARRAY | Kind::ARRAY_WITH_NAMED_LENGTH | Kind::ENDLESS_ARRAY,
            Kind::ARRAYLIKE
        )
    )
}

// Whether a type is like another: the same, but that arrays may stand where the other has an Arraylike.
pub fn is_like(a: &[u64], b: &[u64]) -> bool
    ensures { result ≡ rules.like (layers a.now) (layers b.now) }
{
    match (a, b) {
        ([k, _, _, element @ ..], [l, _, _, held @ ..]) if array_meets_arraylike(*k, *l) => {
            is_like(element, held)
        }
        _ => identical(a, b),
    }
}
