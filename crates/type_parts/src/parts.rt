ghost use Rattle.std.specs.Prelude.{◌≡◌, ◌↔◌, IsTrue, IsSome};
ghost use Rattle.type_layers.specs.Layers.{layers, outer};
ghost use Rattle.type_parts.specs.Parts.{element_of, pointee_of, viewee_of, fully_dereferenced, has_element, has_pointee, has_viewee, inner_if};
ghost use Rattle.type_parts.specs.AsCoded.{words_of};

use type_layers::{inner, is_array, is_reference, is_slice, outer};
use type_numbers::Kind;

fn has_element(k: u64) -> bool
    ensures { result ≡ has_element k }
{
    is_array(k) | is_slice(k)
}

// The inner type where the type has it.
fn inner_if(there: bool, a: &[u64]) -> Option<&[u64]>
    ensures there { IsSome result ↔ IsTrue there }
    ensures words { words_of result ≡ inner_if there a.now }
{
    if there { Some(inner(a)) } else { None }
}

// The element type of an array or a slice.
#[tactic(auto, unfolding(crate::specs::Parts::element_of))]
pub fn get_element_type(a: &[u64]) -> Option<&[u64]>
    ensures there { IsSome result ↔ IsTrue (has_element (outer (layers a.now))) }
    ensures words { words_of result ≡ element_of a.now }
{
    inner_if(has_element(outer(a)), a)
}

// The type that a Pointer points to.
#[tactic(auto, unfolding(crate::specs::Parts::pointee_of))]
pub fn get_pointee_type(a: &[u64]) -> Option<&[u64]>
    ensures there { IsSome result ↔ IsTrue (has_pointee (outer (layers a.now))) }
    ensures words { words_of result ≡ pointee_of a.now }
{
    inner_if(outer(a) == Kind::POINTER, a)
}

// The type that a View views.
#[tactic(auto, unfolding(crate::specs::Parts::viewee_of))]
pub fn get_viewee_type(a: &[u64]) -> Option<&[u64]>
    ensures there { IsSome result ↔ IsTrue (has_viewee (outer (layers a.now))) }
    ensures words { words_of result ≡ viewee_of a.now }
{
    inner_if(outer(a) == Kind::VIEW, a)
}

// The type without the Pointers and Views that stand outside everything else.
#[tactic(auto, using(crate::proofs::Dereferenced::dereferenced))]
pub fn fully_dereferenced(a: &[u64]) -> &[u64]
    ensures { result.now ≡ fully_dereferenced a.now }
{
    match a {
        [kind, _, _, inside @ ..] if is_reference(*kind) => fully_dereferenced(inside),
        _ => a,
    }
}
