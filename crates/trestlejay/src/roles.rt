ghost use Rattle.std.specs.Prelude.{◌≡◌};
ghost use Rattle.type_roles.specs.Roles.{role_answer};
ghost use Rattle.write_answer.specs.Flat.{flat};

use type_roles::Role;
use write_answer::Answer;

pub fn tj_can_be_sized(t: &[u64]) -> Answer
    ensures { result ≡ flat (role_answer Role.Sized t.now) }
{
    Answer::from(type_roles::can_be(Role::Sized, t))
}

pub fn tj_can_be_struct_member(t: &[u64]) -> Answer
    ensures { result ≡ flat (role_answer Role.StructMember t.now) }
{
    Answer::from(type_roles::can_be(Role::StructMember, t))
}

pub fn tj_can_be_word_member(t: &[u64]) -> Answer
    ensures { result ≡ flat (role_answer Role.WordMember t.now) }
{
    Answer::from(type_roles::can_be(Role::WordMember, t))
}

pub fn tj_can_be_constant(t: &[u64]) -> Answer
    ensures { result ≡ flat (role_answer Role.Constant t.now) }
{
    Answer::from(type_roles::can_be(Role::Constant, t))
}

pub fn tj_can_be_variable(t: &[u64]) -> Answer
    ensures { result ≡ flat (role_answer Role.Variable t.now) }
{
    Answer::from(type_roles::can_be(Role::Variable, t))
}

pub fn tj_can_be_parameter(t: &[u64]) -> Answer
    ensures { result ≡ flat (role_answer Role.Parameter t.now) }
{
    Answer::from(type_roles::can_be(Role::Parameter, t))
}

pub fn tj_can_be_returned(t: &[u64]) -> Answer
    ensures { result ≡ flat (role_answer Role.Returned t.now) }
{
    Answer::from(type_roles::can_be(Role::Returned, t))
}
