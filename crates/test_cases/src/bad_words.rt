ghost use Rattle.std.specs.Prelude.{◌<◌};

use crate::report::Show;
use crate::types::{INT32, NO_KIND, POINTER};
use std::io;
use type_first_refusal::check_type;

// What the checks say of sixteen layers, Pointers around an Int32, one of which is of a kind and has good and bad words.
fn layer(rt: &impl Print, at: usize, k: u64) -> io::Result<()>
    requires { at < 16 }
{
    print!(rt; "{k} at {at}:")?;
    for name in [0, 1, 4294967295, 4294967296] {
        print!(rt; " |")?;
        for number in [0, 1, 2, u64::MAX] {
            let mut layers = [POINTER; 16];
            layers[15] = INT32;
            layers[at] = [k, name, number];
            check_type(layers.as_flattened()).show(rt)?;
        }
    }
    println!(rt)
}

// Every kind, and the first number that is none, in the first, a middle and the last layer, with good and bad names and
// numbers in every combination.
pub(crate) fn bad_words(rt: &impl Print) -> io::Result<()> {
    print!(rt; "kind at layer, of sixteen: | the names 0 1 4294967295 4294967296,")?;
    println!(rt; " each with the numbers 0 1 2 18446744073709551615")?;
    for k in 0..=NO_KIND {
        layer(rt, 0, k)?;
        layer(rt, 7, k)?;
        layer(rt, 15, k)?;
    }
    Ok(())
}
