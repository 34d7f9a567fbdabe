ghost use Rattle.std.specs.Prelude.{◌≡◌};
ghost use Rattle.type_layers.specs.Layers.{layers};
ghost use Rattle.type_layers.specs.Answer.{of_verdict, is_given};
ghost use Rattle.type_size_and_depth.specs.Known.{known_size};
ghost use Rattle.type_roles.specs.Grid as grid;
ghost use Rattle.type_roles.specs.Roles as roles;

use crate::grid::{entry_of, says};
use crate::role::Role;
use type_first_refusal::check_type;
use type_layers::{Refused, outer};
use type_size_and_depth::known_size;

// A word member needs a known size, which the grid does not tell.
fn size_test(role: Role, a: &[u64]) -> bool
    ensures { result ≡ grid.size_test role (is_given (known_size (layers a.now))) }
{
    match role {
        Role::WordMember => known_size(a).is_some(),
        _ => true,
    }
}

// Whether any words are a type that can be used so.
#[tactic(auto, using(crate::proofs::Told::told), unfolding(crate::specs::Roles::role_answer))]
pub fn can_be(role: Role, a: &[u64]) -> Result<bool, Refused>
    ensures { of_verdict result ≡ roles.role_answer role a.now }
{
    check_type(a)?;
    Ok(says(entry_of(role, outer(a)), a) && size_test(role, a))
}
