ghost use Rattle.std.specs.Prelude.{◌≡◌};
ghost use Rattle.type_layers.specs.Answer.{of_result};
ghost use Rattle.extern_fixing.specs.Answers.{fixed_answer, fixed_buffer};

use crate::externalize::fix_external;
use extern_plain::fix_plain;
use type_first_refusal::check_type;
use type_layers::Refused;
use type_numbers::Context;

// What a declared type becomes, written from the first word of the buffer on. A refusal leaves the buffer as it was.
// The context stays a number: any may come from C, and it is refused after the type.
pub fn fix_type_for_flags(
    t: &[u64],
    external: bool,
    context: u64,
    out: &mut [u64],
) -> Result<u64, Refused>
    ensures answer { of_result result ≡ fixed_answer t.now external context out.old }
    ensures buffer { out.new ≡ fixed_buffer t.now external context out.old }
{
    check_type(t)?;
    Context::try_from(context)?;
    if external {
        fix_external(t, out)
    } else {
        fix_plain(t, context, out)
    }
}
