ghost use Rattle.std.specs.Prelude.{◌≡◌, Ok};
ghost use Rattle.type_layers.specs.Layers.{layers};
ghost use Rattle.type_layers.specs.Answer.{of_found};
ghost use Rattle.type_part_starts.specs.PartStarts.{start_in, start_answer};
ghost use Rattle.type_part_starts.specs.AsCoded.{ReachesToTheEnd};

use type_first_refusal::check_type;
use type_layers::Refused;
use type_parts::{fully_dereferenced, get_element_type, get_pointee_type, get_viewee_type};

// The parts of a type that can be asked for.
#[derive(Clone, Copy, Debug, PartialEq, Eq)]
pub enum Part {
    Element,
    Pointee,
    Viewee,
    Dereferenced,
}

// The part of a type that is asked for; where there is one, it reaches to the last word.
#[tactic(auto, using(crate::proofs::Places::reaching))]
fn part_of(part: Part, a: &[u64]) -> Option<&[u64]>
    ensures { ReachesToTheEnd part a.now result }
{
    match part {
        Part::Element => get_element_type(a),
        Part::Pointee => get_pointee_type(a),
        Part::Viewee => get_viewee_type(a),
        Part::Dereferenced => Some(fully_dereferenced(a)),
    }
}

// Where a part of a type starts.
fn start_in(part: Part, a: &[u64]) -> Option<u64>
    ensures { of_found (Ok result) ≡ start_in part (layers a.now) }
{
    let inside = part_of(part, a)?;
    Some((a.len() - inside.len()) as u64)
}

// Where a part of a type starts, for any words.
#[tactic(auto, unfolding(crate::specs::PartStarts::start_answer))]
pub fn start_of(part: Part, a: &[u64]) -> Result<Option<u64>, Refused>
    ensures { of_found result ≡ start_answer part a.now }
{
    check_type(a)?;
    Ok(start_in(part, a))
}
