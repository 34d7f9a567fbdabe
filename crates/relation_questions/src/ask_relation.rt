ghost use Rattle.std.specs.Prelude.{◌≡◌};
ghost use Rattle.type_layers.specs.Layers.{layers};
ghost use Rattle.type_layers.specs.Answer.{of_verdict};
ghost use Rattle.relation_questions.specs.Questions as answers;

use relation_coerces::{can_autoderef_into, can_subautoderef_into};
use relation_declared::{can_be_concretization_of, can_be_declared_as, is_like};
use relation_equals::{equals, identical};
use type_first_refusal::check_types;
use type_layers::Refused;

// The relations of yes or no that can be asked for. No closure in its place: the C face's contracts name the relation.
#[derive(Clone, Copy, Debug, PartialEq, Eq)]
pub enum Relation {
    Identical,
    Equals,
    Like,
    DeclaredAs,
    ConcretizationOf,
    Autoderefs,
    Subautoderefs,
}

// Whether the first of two types stands so to the second.
pub fn holds(relation: Relation, a: &[u64], b: &[u64]) -> bool
    ensures { result ≡ answers.relates relation (layers a.now) (layers b.now) }
{
    match relation {
        Relation::Identical => identical(a, b),
        Relation::Equals => equals(a, b),
        Relation::Like => is_like(a, b),
        Relation::DeclaredAs => can_be_declared_as(a, b),
        Relation::ConcretizationOf => can_be_concretization_of(a, b),
        Relation::Autoderefs => can_autoderef_into(a, b),
        Relation::Subautoderefs => can_subautoderef_into(a, b),
    }
}

// Whether any words are two types of which the first stands so to the second.
#[tactic(auto, unfolding(crate::specs::Questions::relation_answer))]
pub fn relates(relation: Relation, a: &[u64], b: &[u64]) -> Result<bool, Refused>
    ensures { of_verdict result ≡ answers.relation_answer relation a.now b.now }
{
    check_types(a, b)?;
    Ok(holds(relation, a, b))
}
