ghost use Rattle.std.specs.Prelude.{◌≡◌, cond, ◌||◌, [], ◌∷◌, ◌≤◌, eqb};
ghost use Rattle.type_numbers.specs.Kind as kind;
ghost use Rattle.type_numbers.specs.AsCoded.{words};
ghost use Rattle.type_layers.specs.Layers.{layer, layers, is_reference, spelled};
ghost use Rattle.type_layers.specs.AsCoded.{Whole};
ghost use Rattle.type_layers.specs.Answer.{of_result};
ghost use Rattle.extern_fixing.specs.Fixing as fixing;
ghost use Rattle.extern_fixing.specs.AsCoded.{Room};
ghost use Rattle.write_type.specs.Outcome.{told, over, Writes};

use type_builders::{Layer, two_layers};
use type_layers::{Refused, inner, outer};
use type_numbers::{Kind, Limit, Refusal};
use type_wellformed::is_wellformed;
use write_type::write_type;
use write_words::write_words;

fn is_kept(k: u64) -> bool
    ensures { result ≡ fixing.kept k }
{
    matches!(
        k,
        Kind::INT8
            | Kind::INT16
            | Kind::INT32
            | Kind::INT64
            | Kind::UINT8
            | Kind::UINT16
            | Kind::UINT32
            | Kind::UINT64
            | Kind::USIZE
            | Kind::CHAR8
    )
}

fn goes_inside(k: u64) -> bool
    ensures { result ≡ is_reference k || eqb k kind.arraylike }
{
    matches!(k, Kind::POINTER | Kind::VIEW | Kind::ARRAYLIKE)
}

// What becomes of a layer that externalizing goes inside of.
fn external_layer(k: u64, name: u64, number: u64) -> [u64; 3]
    ensures { result ≡ cond (eqb k kind.arraylike) (words kind.endless_array 0 0) (words k name number) }
{
    if k == Kind::ARRAYLIKE {
        Layer::plain(Kind::ENDLESS_ARRAY)
    } else {
        [k, name, number]
    }
}

// Makes the type externalized. It starts at a place, a layer, of the type given.
fn externalize_type(t: &[u64], place: u64, made: &mut [u64]) -> Result<u64, Refused>
    requires { Room t.now place made.old }
    ensures answer { of_result result ≡ told (fixing.externalized place (layers t.now)) }
    ensures buffer { made.new ≡ over (fixing.externalized place (layers t.now)) made.old }
{
    match t {
        [k, name, number, inside @ ..] if goes_inside(*k) => {
            externalize_type(inside, place + 1, &mut made[3..])?;
            write_words(made, &external_layer(*k, *name, *number));
            Ok(t.len() as u64)
        }
        [k, _, _, ..] if is_kept(*k) => {
            write_words(made, t);
            Ok(t.len() as u64)
        }
        _ => Err(Refused {
            refusal: Refusal::NotInExtern,
            place,
        }),
    }
}

// The type externalized, inside of the layers in front.
fn externalize_part(front: &[u64], t: &[u64], place: u64, out: &mut [u64]) -> Result<u64, Refused>
    requires { Whole t.now × (place ≤ 1) }
    ensures { Writes (fixing.under (layers front.now) (fixing.externalize place (layers t.now)))
        result out.old out.new }
{
    if !is_wellformed(t) {
        return Err(Refusal::IllFormed.into());
    }
    let mut made = [0; Limit::TYPE_WORDS];
    externalize_type(t, place, &mut made)?;
    write_type(out, front, &made[..t.len()])
}

// An extern type.
pub(crate) fn fix_external(t: &[u64], out: &mut [u64]) -> Result<u64, Refused>
    requires { Whole t.now }
    ensures { Writes (fixing.fixed_extern (layers t.now))
        result out.old out.new }
{
    if outer(t) == Kind::ARRAYLIKE {
        let front = two_layers(Layer::plain(Kind::VIEW), Layer::plain(Kind::ENDLESS_ARRAY));
        externalize_part(&front, inner(t), 1, out)
    } else {
        externalize_part(&[], t, 0, out)
    }
}
