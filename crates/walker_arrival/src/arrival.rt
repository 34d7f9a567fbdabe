ghost use Rattle.type_layers.specs.Answer.{given};
ghost use Rattle.write_type.specs.Outcome.{Writes};
ghost use Rattle.walker_step.specs.AsCoded.{seen};
ghost use Rattle.walker_arrival.specs.Arrived.{addressed};

use type_builders::{Layer, two_layers};
use type_layers::{Refused, inner};
use type_numbers::Kind;
use write_type::write_type;

// The arrival at the type at these words, whose outer layer counts as Arraylike where desliced is set, or at its address.
#[tactic(auto, using(crate::proofs::Arriving::fronts))]
pub fn arrive(out: &mut [u64], cur: &[u64], desliced: bool, address: bool) -> Result<u64, Refused>
    ensures { Writes (given (addressed address (seen cur.now desliced))) result out.old out.new }
{
    let pointer = Layer::plain(Kind::POINTER);
    let arraylike = Layer::plain(Kind::ARRAYLIKE);
    match (address, desliced) {
        (false, false) => write_type(out, &[], cur),
        (true, false) => write_type(out, &pointer, cur),
        (false, true) => write_type(out, &arraylike, inner(cur)),
        (true, true) => write_type(out, &two_layers(pointer, arraylike), inner(cur)),
    }
}
