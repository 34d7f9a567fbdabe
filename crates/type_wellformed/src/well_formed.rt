ghost use Rattle.std.specs.Prelude.{◌≡◌, not, ◌||◌, eqb};
ghost use Rattle.type_numbers.specs.Kind as kind;
ghost use Rattle.type_layers.specs.Layers.{layers};
ghost use Rattle.type_layers.specs.Answer.{of_verdict};
ghost use Rattle.type_wellformed.specs.WellFormed as formed;

use type_first_refusal::check_type;
use type_layers::{Refused, is_array, is_reference, is_slice, outer};
use type_numbers::Kind;

// Whether a type with this outer kind may be an Inner.
fn can_be_inner(k: u64) -> bool
    ensures { result
        ≡ not (eqb k kind.void || eqb k kind.slice || eqb k kind.slice_pointer || eqb k kind.view) }
{
    !matches!(
        k,
        Kind::VOID | Kind::SLICE | Kind::SLICE_POINTER | Kind::VIEW
    )
}

// Whether a type is well formed.
#[cycle(is_wellformed_is_wellformed_element_is_wellformed_inner)]
#[tactic(auto, using(crate::proofs::Fits::types))]
pub fn is_wellformed(a: &[u64]) -> bool
    ensures { result ≡ formed.well_formed (layers a.now) }
{
    match a {
        [k, _, _, inside @ ..] if is_array(*k) | is_slice(*k) => is_wellformed_element(inside),
        [k, _, _, inside @ ..] if is_reference(*k) => is_wellformed_inner(inside),
        [_, _, _, ..] => true,
        _ => false,
    }
}

#[cycle(is_wellformed_is_wellformed_element_is_wellformed_inner)]
#[tactic(auto, unfolding(crate::specs::WellFormed::element))]
fn is_wellformed_element(a: &[u64]) -> bool
    ensures { result ≡ formed.element (layers a.now) }
{
    outer(a) != Kind::ENDLESS_ARRAY && is_wellformed_inner(a)
}

#[cycle(is_wellformed_is_wellformed_element_is_wellformed_inner)]
#[tactic(auto, using(crate::proofs::Fits::inners))]
fn is_wellformed_inner(a: &[u64]) -> bool
    ensures { result ≡ formed.inner (layers a.now) }
{
    match a {
        [k, _, _, inside @ ..] if is_array(*k) => is_wellformed_element(inside),
        [Kind::POINTER, _, _, inside @ ..] => is_wellformed_inner(inside),
        [k, _, _, ..] => can_be_inner(*k) && is_wellformed(a),
        _ => false,
    }
}

// Whether any words are a well-formed type.
#[tactic(auto, unfolding(crate::specs::WellFormed::well_formed_answer))]
pub fn wellformed(a: &[u64]) -> Result<bool, Refused>
    ensures { of_verdict result ≡ formed.well_formed_answer a.now }
{
    check_type(a)?;
    Ok(is_wellformed(a))
}
