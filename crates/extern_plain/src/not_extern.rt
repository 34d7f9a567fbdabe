ghost use Rattle.std.specs.Prelude.{◌≡◌, ◌||◌, eqb};
ghost use Rattle.type_numbers.specs.Context as of-context;
ghost use Rattle.type_layers.specs.Layers.{layers};
ghost use Rattle.type_layers.specs.Answer.{given};
ghost use Rattle.write_type.specs.Outcome.{Writes};
ghost use Rattle.extern_plain.specs.Plain as fixed;

use type_builders::Layer;
use type_layers::{Refused, inner, outer};
use type_numbers::{Context, Kind};
use write_type::write_type;

// Whether a struct is handed on by a view of it.
fn is_viewed(context: u64) -> bool
    ensures { result ≡ eqb context of-context.parameter || eqb context of-context.returned }
{
    matches!(
        Context::try_from(context),
        Ok(Context::Parameter | Context::Returned)
    )
}

// A type that is not extern. The context stays a number, since the promise is of any.
#[tactic(auto, using(crate::proofs::Fronts::fronts))]
pub fn fix_plain(t: &[u64], context: u64, out: &mut [u64]) -> Result<u64, Refused>
    ensures { Writes (given (fixed.fixed_plain context (layers t.now)))
        result out.old out.new }
{
    match outer(t) {
        Kind::ARRAYLIKE => write_type(out, &Layer::plain(Kind::SLICE), inner(t)),
        Kind::STRUCT if is_viewed(context) => write_type(out, &Layer::plain(Kind::VIEW), t),
        Kind::POINTER if outer(inner(t)) == Kind::ARRAYLIKE => {
            write_type(out, &Layer::plain(Kind::SLICE_POINTER), inner(inner(t)))
        }
        _ => write_type(out, &[], t),
    }
}
