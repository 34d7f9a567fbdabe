ghost use Rattle.std.specs.Prelude.{◌≡◌, ◌&&◌};
ghost use Rattle.type_layers.specs.Answer.{is_given};
ghost use Rattle.type_checks.specs.Check.{check_of};
ghost use Rattle.relation_questions.specs.Questions.{coercion_answer, relation_answer};
ghost use Rattle.write_answer.specs.Flat.{flat};

use relation_questions::{Relation, holds, relates};
use type_checks::is_type;
use write_answer::{Answer, accepted};

// Whether both are types. Nearly all that are asked about are, and of those no refusal has to be told.
fn are_types(a: &[u64], b: &[u64]) -> bool
    ensures { result ≡ (is_given (check_of a.now) && is_given (check_of b.now)) }
{
    is_type(a) && is_type(b)
}

fn related(relation: Relation, a: &[u64], b: &[u64]) -> Answer
    ensures { result ≡ flat (relation_answer relation a.now b.now) }
{
    if are_types(a, b) {
        accepted(u64::from(holds(relation, a, b)))
    } else {
        Answer::from(relates(relation, a, b))
    }
}

pub fn tj_identical(a: &[u64], b: &[u64]) -> Answer
    ensures { result ≡ flat (relation_answer Relation.Identical a.now b.now) }
{
    related(Relation::Identical, a, b)
}

pub fn tj_equals(a: &[u64], b: &[u64]) -> Answer
    ensures { result ≡ flat (relation_answer Relation.Equals a.now b.now) }
{
    related(Relation::Equals, a, b)
}

pub fn tj_is_like(a: &[u64], b: &[u64]) -> Answer
    ensures { result ≡ flat (relation_answer Relation.Like a.now b.now) }
{
    related(Relation::Like, a, b)
}

pub fn tj_can_be_declared_as(a: &[u64], b: &[u64]) -> Answer
    ensures { result ≡ flat (relation_answer Relation.DeclaredAs a.now b.now) }
{
    related(Relation::DeclaredAs, a, b)
}

pub fn tj_can_be_concretization_of(a: &[u64], b: &[u64]) -> Answer
    ensures { result ≡ flat (relation_answer Relation.ConcretizationOf a.now b.now) }
{
    related(Relation::ConcretizationOf, a, b)
}

pub fn tj_coerces(a: &[u64], b: &[u64]) -> Answer
    ensures { result ≡ flat (coercion_answer a.now b.now) }
{
    if are_types(a, b) {
        return accepted(u64::from(relation_coerces::coerces(a, b)));
    }
    match relation_questions::coerces(a, b) {
        Ok(coercion) => accepted(u64::from(coercion)),
        Err(e) => e.into(),
    }
}

pub fn tj_can_autoderef_into(a: &[u64], b: &[u64]) -> Answer
    ensures { result ≡ flat (relation_answer Relation.Autoderefs a.now b.now) }
{
    related(Relation::Autoderefs, a, b)
}

pub fn tj_can_subautoderef_into(a: &[u64], b: &[u64]) -> Answer
    ensures { result ≡ flat (relation_answer Relation.Subautoderefs a.now b.now) }
{
    related(Relation::Subautoderefs, a, b)
}
