ghost use Rattle.std.specs.Prelude.{◌≡◌};
ghost use Rattle.type_layers.specs.Layers.{layers};
ghost use Rattle.relation_declared.specs.Declared as rules;

use relation_equals::identical;
use type_layers::{inner, outer};
use type_numbers::Kind;

// The list has Slice where that of like has EndlessArray: two rules, each a function with its own edits.
fn declares_arraylike(k: u64, l: u64) -> bool
    ensures { result ≡ rules.declares_arraylike k l }
{
    matches!(
        (k, l),
        (
            Kind::ARRAY | Kind::ARRAY_WITH_NAMED_LENGTH | Kind::SLICE,
            Kind::ARRAYLIKE
        )
    )
}

// A SlicePointer against a Pointer to an Arraylike: the outer kinds of both and of the pointee.
pub(crate) fn slice_pointer_meets_pointer(k: u64, l: u64, m: u64) -> bool
    ensures { result ≡ rules.slice_pointer_meets_pointer k l m }
{
    matches!(
        (k, l, m),
        (Kind::SLICE_POINTER, Kind::POINTER, Kind::ARRAYLIKE)
    )
}

// Whether a type can be declared as another.
#[tactic(auto, using(crate::proofs::Decisions::declares))]
pub fn can_be_declared_as(a: &[u64], b: &[u64]) -> bool
    ensures { result ≡ rules.declared (layers a.now) (layers b.now) }
{
    let element = inner(a);
    let held = inner(b);
    let k = outer(a);
    let l = outer(b);
    if declares_arraylike(k, l) {
        identical(element, held)
    } else if slice_pointer_meets_pointer(k, l, outer(held)) {
        identical(element, inner(held))
    } else {
        identical(a, b)
    }
}
