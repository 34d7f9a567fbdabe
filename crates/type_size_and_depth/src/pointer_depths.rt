ghost use Rattle.std.specs.Prelude.{◌≡◌};
ghost use Rattle.type_layers.specs.Layers.{layers};
ghost use Rattle.type_layers.specs.Answer.{of_result};
ghost use Rattle.type_size_and_depth.specs.Depth.{pointer_depth, pointer_depth_answer};

use type_first_refusal::check_type;
use type_layers::Refused;
use type_numbers::Kind;

// The pointer depth; of no layer 0.
#[tactic(auto, using(crate::proofs::Pointers::counted))]
pub fn depth(a: &[u64]) -> u64
    ensures { result ≡ pointer_depth (layers a.now) }
{
    match a {
        [Kind::POINTER, _, _, inside @ ..] => depth(inside) + 1,
        [Kind::SLICE_POINTER, _, _, ..] => 1,
        _ => 0,
    }
}

// The pointer depth, for any words.
#[tactic(auto, unfolding(crate::specs::Depth::pointer_depth_answer))]
pub fn pointer_depth(a: &[u64]) -> Result<u64, Refused>
    ensures { of_result result ≡ pointer_depth_answer a.now }
{
    check_type(a)?;
    Ok(depth(a))
}
