ghost use Rattle.std.specs.Prelude.{◌≡◌};
ghost use Rattle.type_layers.specs.Layers.{layers};
ghost use Rattle.type_layers.specs.AsCoded.{head};
ghost use Rattle.relation_declared.specs.Declared as rules;

use crate::declared::slice_pointer_meets_pointer;
use crate::like::{array_meets_arraylike, is_like};
use relation_equals::identical;
use type_layers::{holds_inner, inner, is_slice, outer};
use type_numbers::Kind;

// The same outer kind that holds an inner type, with the same length or name.
fn same_holder(x: [u64; 3], y: [u64; 3]) -> bool
    ensures { result ≡ rules.same_holder (head x) (head y) }
{
    let [k, n, m] = x;
    let [l, p, q] = y;
    k == l
        && match k {
            Kind::ARRAY => m == q,
            Kind::ARRAY_WITH_NAMED_LENGTH => n == p,
            _ => holds_inner(k),
        }
}

fn meets_arraylike(k: u64, l: u64) -> bool
    ensures { result ≡ rules.meets_arraylike k l }
{
    array_meets_arraylike(k, l) | (is_slice(k) & (l == Kind::ARRAYLIKE))
}

// A Struct or a Word against an unresolved type with no name or the same name.
fn resolves(x: [u64; 3], y: [u64; 3]) -> bool
    ensures { result ≡ rules.resolves (head x) (head y) }
{
    let [k, n, _] = x;
    let [l, p, q] = y;
    matches!(
        (k, l),
        (Kind::STRUCT | Kind::WORD, Kind::UNRESOLVED_STRUCT_OR_WORD)
    ) && (q == 0 || n == p)
}

// Whether a type is a concretization of another.
pub fn can_be_concretization_of(a: &[u64], b: &[u64]) -> bool
    ensures { result ≡ rules.concretization (layers a.now) (layers b.now) }
{
    let ([k, n, m, element @ ..], [l, p, q, held @ ..]) = (a, b) else {
        return identical(a, b);
    };
    let x = [*k, *n, *m];
    let y = [*l, *p, *q];
    if same_holder(x, y) {
        can_be_concretization_of(element, held)
    } else if meets_arraylike(*k, *l) {
        is_like(element, held)
    } else if slice_pointer_meets_pointer(*k, *l, outer(held)) {
        is_like(element, inner(held))
    } else {
        resolves(x, y) || identical(a, b)
    }
}
