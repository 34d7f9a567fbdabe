ghost use Rattle.std.specs.Prelude.{◌≡◌, ◌+◌, ◌≤◌, ◌<◌, length};
ghost use Rattle.sheet_text.specs.AsCoded.{Puts};
ghost use Rattle.sheet_pairs.specs.Text as text;

use relation_coerces::{can_autoderef_into, coerces};
use relation_declared::{can_be_concretization_of, can_be_declared_as};
use relation_equals::equals;
use sheet_text::Text;

fn digit(yes: bool) -> u8
    ensures { result ≡ text.digit yes }
{
    b'0' + u8::from(yes)
}

// The six relations of two types, each behind a space, and the end of the line. Two of them are read off one answer.
fn answers(a: &[u64], b: &[u64]) -> [u8; 13]
    ensures { result ≡ text.answers a.now b.now }
{
    let coercion = coerces(a, b);
    [
        b' ',
        digit(equals(a, b)),
        b' ',
        digit(can_be_declared_as(a, b)),
        b' ',
        digit(can_be_concretization_of(a, b)),
        b' ',
        digit(coercion.is_as_value()),
        b' ',
        digit(coercion.is_by_address()),
        b' ',
        digit(can_autoderef_into(a, b)),
        b'\n',
    ]
}

// Puts the line of two types and their positions.
pub(crate) fn put_line(to: &mut Text<'_>, i: usize, j: usize, a: &[u64], b: &[u64])
    requires { (to.old.at + 18 ≤ length to.old.out.now) × (i < 100) × (j < 100) }
    ensures { Puts (text.line i j a.now b.now) to.old to.new }
{
    to.put_number(i);
    to.put(b" ");
    to.put_number(j);
    to.put(&answers(a, b));
}
