ghost use Rattle.std.specs.Prelude.{◌≡◌};
ghost use Rattle.relation_questions.specs.declared.ask_relation.Relation.TheVariants as Relation;
ghost use Rattle.relation_questions.specs.Questions.{coercion_answer, relation_answer};
ghost use Rattle.write_answer.specs.Flat.{flat};

use trestlejay::Answer;

#[unsafe(no_mangle)]
pub extern "C" fn tj_identical(a: &[u64], b: &[u64]) -> Answer
    ensures { result ≡ flat (relation_answer Relation.Identical a.now b.now) }
{
    trestlejay::tj_identical(a, b)
}

#[unsafe(no_mangle)]
pub extern "C" fn tj_equals(a: &[u64], b: &[u64]) -> Answer
    ensures { result ≡ flat (relation_answer Relation.Equals a.now b.now) }
{
    trestlejay::tj_equals(a, b)
}

#[unsafe(no_mangle)]
pub extern "C" fn tj_is_like(a: &[u64], b: &[u64]) -> Answer
    ensures { result ≡ flat (relation_answer Relation.Like a.now b.now) }
{
    trestlejay::tj_is_like(a, b)
}

#[unsafe(no_mangle)]
pub extern "C" fn tj_can_be_declared_as(a: &[u64], b: &[u64]) -> Answer
    ensures { result ≡ flat (relation_answer Relation.DeclaredAs a.now b.now) }
{
    trestlejay::tj_can_be_declared_as(a, b)
}

#[unsafe(no_mangle)]
pub extern "C" fn tj_can_be_concretization_of(a: &[u64], b: &[u64]) -> Answer
    ensures { result ≡ flat (relation_answer Relation.ConcretizationOf a.now b.now) }
{
    trestlejay::tj_can_be_concretization_of(a, b)
}

#[unsafe(no_mangle)]
pub extern "C" fn tj_coerces(a: &[u64], b: &[u64]) -> Answer
    ensures { result ≡ flat (coercion_answer a.now b.now) }
{
    trestlejay::tj_coerces(a, b)
}

#[unsafe(no_mangle)]
pub extern "C" fn tj_can_autoderef_into(a: &[u64], b: &[u64]) -> Answer
    ensures { result ≡ flat (relation_answer Relation.Autoderefs a.now b.now) }
{
    trestlejay::tj_can_autoderef_into(a, b)
}

#[unsafe(no_mangle)]
pub extern "C" fn tj_can_subautoderef_into(a: &[u64], b: &[u64]) -> Answer
    ensures { result ≡ flat (relation_answer Relation.Subautoderefs a.now b.now) }
{
    trestlejay::tj_can_subautoderef_into(a, b)
}
