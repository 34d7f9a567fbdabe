ghost use Rattle.std.specs.Prelude.{◌≡◌};
ghost use Rattle.type_roles.specs.declared.role.Role.TheVariants as Role;
ghost use Rattle.type_roles.specs.Roles.{role_answer};
ghost use Rattle.write_answer.specs.Flat.{flat};

use trestlejay::Answer;

#[unsafe(no_mangle)]
pub extern "C" fn tj_can_be_sized(t: &[u64]) -> Answer
    ensures { result ≡ flat (role_answer Role.Sized t.now) }
{
    trestlejay::tj_can_be_sized(t)
}

#[unsafe(no_mangle)]
pub extern "C" fn tj_can_be_struct_member(t: &[u64]) -> Answer
    ensures { result ≡ flat (role_answer Role.StructMember t.now) }
{
    trestlejay::tj_can_be_struct_member(t)
}

#[unsafe(no_mangle)]
pub extern "C" fn tj_can_be_word_member(t: &[u64]) -> Answer
    ensures { result ≡ flat (role_answer Role.WordMember t.now) }
{
    trestlejay::tj_can_be_word_member(t)
}

#[unsafe(no_mangle)]
pub extern "C" fn tj_can_be_constant(t: &[u64]) -> Answer
    ensures { result ≡ flat (role_answer Role.Constant t.now) }
{
    trestlejay::tj_can_be_constant(t)
}

#[unsafe(no_mangle)]
pub extern "C" fn tj_can_be_variable(t: &[u64]) -> Answer
    ensures { result ≡ flat (role_answer Role.Variable t.now) }
{
    trestlejay::tj_can_be_variable(t)
}

#[unsafe(no_mangle)]
pub extern "C" fn tj_can_be_parameter(t: &[u64]) -> Answer
    ensures { result ≡ flat (role_answer Role.Parameter t.now) }
{
    trestlejay::tj_can_be_parameter(t)
}

#[unsafe(no_mangle)]
pub extern "C" fn tj_can_be_returned(t: &[u64]) -> Answer
    ensures { result ≡ flat (role_answer Role.Returned t.now) }
{
    trestlejay::tj_can_be_returned(t)
}
