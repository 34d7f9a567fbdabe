ghost use Rattle.std.specs.Prelude.{◌≡◌};
ghost use Rattle.relation_questions.specs.Questions.{coercion_answer};
ghost use Rattle.relation_questions.specs.AsCoded as as-coded;

use relation_coerces::Coercion;
use type_first_refusal::check_types;
use type_layers::Refused;

// Of any words: whether they are two types, and how the first coerces into the second.
#[tactic(auto, unfolding(crate::specs::Questions::coercion_answer))]
pub fn coerces(a: &[u64], b: &[u64]) -> Result<Coercion, Refused>
    ensures { as-coded.of_coercion_answer result ≡ coercion_answer a.now b.now }
{
    check_types(a, b)?;
    Ok(relation_coerces::coerces(a, b))
}
