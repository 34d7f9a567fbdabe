ghost use Rattle.std.specs.Prelude.{◌≡◌, cond, eqb};
ghost use Rattle.type_numbers.specs.CoercionNumber as of-coercion;
ghost use Rattle.type_layers.specs.Layers.{layers};
ghost use Rattle.relation_coerces.specs.Coercion.{coercion};
ghost use Rattle.relation_coerces.specs.AsCoded as as-coded;

use relation_equals::{equals, identical};
use type_layers::{inner, outer};
use type_numbers::Kind;

// How a type coerces into another: not at all, as a value, or by its address.
// No Option of two ways: the rules number three answers, and none is the first.
#[derive(Clone, Copy, Debug, PartialEq, Eq)]
pub enum Coercion {
    None,
    AsValue,
    ByAddress,
}

impl From<Coercion> for u64 {
    ghost from_gives = { as-coded.Numbers };

    fn from(coercion: Coercion) -> u64 {
        coercion as u64
    }
}

// Two readings of the one answer. One function of both would be `==`, which is no plainer where it is called.
impl Coercion {
    pub fn is_as_value(self) -> bool
        ensures { result ≡ eqb (as-coded.of_coercion self) of-coercion.as_value }
    {
        self == Coercion::AsValue
    }

    pub fn is_by_address(self) -> bool
        ensures { result ≡ eqb (as-coded.of_coercion self) of-coercion.by_address }
    {
        self == Coercion::ByAddress
    }

    fn only_if(self, same: bool) -> Coercion
        ensures { as-coded.of_coercion result ≡ cond same (as-coded.of_coercion self) of-coercion.none }
    {
        if same { self } else { Coercion::None }
    }
}

#[tactic(auto, using(crate::proofs::Decisions::endless_looked))]
fn same_in_endless_array(element: &[u64], held: &[u64]) -> bool
    ensures { result ≡ as-coded.same_in_endless_array (layers element.now) (layers held.now) }
{
    (outer(held) == Kind::ENDLESS_ARRAY) && equals(element, inner(held))
}

// How a type coerces into another: the outer kinds are looked at once, and then equals or identical is asked once at most.
#[tactic(auto, using(crate::proofs::Decisions::looked))]
pub fn coerces(a: &[u64], b: &[u64]) -> Coercion
    ensures { as-coded.of_coercion result ≡ coercion (layers a.now) (layers b.now) }
{
    let element = inner(a);
    let held = inner(b);
    match (outer(a), outer(b)) {
        (Kind::ARRAY | Kind::ARRAY_WITH_NAMED_LENGTH, Kind::SLICE) => {
            Coercion::AsValue.only_if(equals(element, held))
        }
        (Kind::ARRAY | Kind::ARRAY_WITH_NAMED_LENGTH, Kind::SLICE_POINTER) => {
            Coercion::ByAddress.only_if(equals(element, held))
        }
        (Kind::ARRAY | Kind::ARRAY_WITH_NAMED_LENGTH | Kind::SLICE, Kind::VIEW)
        | (Kind::SLICE_POINTER, Kind::POINTER) => {
            Coercion::AsValue.only_if(same_in_endless_array(element, held))
        }
        (Kind::ARRAY | Kind::ARRAY_WITH_NAMED_LENGTH, Kind::POINTER) => {
            Coercion::ByAddress.only_if(same_in_endless_array(element, held))
        }
        (Kind::STRUCT, Kind::VIEW) => Coercion::AsValue.only_if(identical(a, held)),
        _ => Coercion::None,
    }
}
