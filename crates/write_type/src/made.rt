ghost use Rattle.std.specs.Prelude.{◌≡◌, ◌++◌};
ghost use Rattle.type_layers.specs.Layers.{layers, spelled};
ghost use Rattle.type_layers.specs.Answer.{given};
ghost use Rattle.write_type.specs.Outcome.{Writes};

use type_layers::Refused;
use type_numbers::{Limit, Refusal};
use write_words::write_words;

// The words of the layers, without one or two that are left over.
fn whole_layers(ws: &[u64]) -> &[u64]
    ensures { result.now ≡ spelled (layers ws.now) }
{
    &ws[..ws.len() / 3 * 3]
}

// Writes a type that is made of some layers in front and the rest, where it may be written; how many words it has.
pub fn write_type(out: &mut [u64], front: &[u64], rest: &[u64]) -> Result<u64, Refused>
    ensures { Writes (given (layers front.now ++ layers rest.now))
        result out.old out.new }
{
    let first = whole_layers(front);
    let after = whole_layers(rest);
    let start = first.len();
    let n = start + after.len();
    if n > Limit::TYPE_WORDS {
        return Err(Refusal::TooManyLayers.into());
    }
    if out.len() < n {
        return Err(Refusal::OutputTooShort.into());
    }
    write_words(out, first);
    write_words(&mut out[start..], after);
    Ok(n as u64)
}
