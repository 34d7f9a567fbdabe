ghost use Rattle.std.specs.Prelude.{◌≡◌};
ghost use Rattle.type_layers.specs.Layers.{layers};
ghost use Rattle.relation_coerces.specs.Coerces as rules;
ghost use Rattle.relation_coerces.specs.AsCoded.{may_equal};

use crate::coercion::coerces;
use relation_equals::equals;
use type_layers::{inner, is_reference, outer};
use type_numbers::Kind;

fn is_array_or_struct(k: u64) -> bool
    ensures { result ≡ rules.is_array_or_struct k }
{
    matches!(
        k,
        Kind::ARRAY
            | Kind::ARRAY_WITH_NAMED_LENGTH
            | Kind::SLICE
            | Kind::SLICE_POINTER
            | Kind::ENDLESS_ARRAY
            | Kind::STRUCT
    )
}

// Whether a type autoderefs into another. What a View and a Pointer have in common is what sub-autoderefs asks.
#[tactic(auto, using(crate::proofs::Dereferences::auto_asked))]
pub fn can_autoderef_into(a: &[u64], b: &[u64]) -> bool
    ensures { result ≡ rules.autoderefs (layers a.now) (layers b.now) }
{
    match outer(a) {
        k if is_array_or_struct(k) => equals(a, b) || coerces(a, b).is_as_value(),
        Kind::VIEW => equals(a, b) || can_subautoderef_into(a, b),
        Kind::POINTER => {
            equals(a, b) || can_subautoderef_into(a, b) || coerces(inner(a), b).is_by_address()
        }
        _ => false,
    }
}

// Whether a type of the outer kind j may equal one of the outer kind l: a View or a Pointer equals only its own kind.
fn may_equal(j: u64, l: u64) -> bool
    ensures { result ≡ may_equal j l }
{
    (j == l) | !is_reference(j)
}

// Whether a View or a Pointer sub-autoderefs into another type. Where both are of one outer kind, only what they hold is
// asked: whatever equals a View or a Pointer, or sub-autoderefs into it, sub-autoderefs into what that holds.
#[tactic(auto, using(crate::proofs::Dereferences::sub_asked))]
pub fn can_subautoderef_into(a: &[u64], b: &[u64]) -> bool
    ensures { result ≡ rules.subautoderefs (layers a.now) (layers b.now) }
{
    match a {
        [k, _, _, d @ ..] if is_reference(*k) => {
            let l = outer(b);
            if l == *k {
                can_subautoderef_into(d, inner(b))
            } else {
                (may_equal(outer(d), l) && equals(d, b)) || can_subautoderef_into(d, b)
            }
        }
        _ => false,
    }
}
