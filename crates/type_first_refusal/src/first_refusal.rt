ghost use Rattle.std.specs.Prelude.{◌≡◌, ◌+◌, ◌≤◌, ◌%◌, length};
ghost use Rattle.type_numbers.specs.Limit as limit;
ghost use Rattle.type_layers.specs.Layers.{layers};
ghost use Rattle.type_layers.specs.Answer.{next, of_result};
ghost use Rattle.type_checks.specs.Check.{bad_layer, misplaced, check_of};
ghost use Rattle.type_first_refusal.specs.AsCoded.{of_place};

use crate::bad_word::bad_word;
use type_checks::is_type;
use type_layers::{Refused, holds_inner};
use type_numbers::{Limit, Refusal};

// The place of the first bad word, three for each layer, of words that start with layer p.
fn first_bad_word(ws: &[u64], p: u64) -> Option<u64>
    requires { p + length ws.now ≤ limit.type_words }
    ensures { of_place result ≡ bad_layer p (layers ws.now) }
{
    match ws {
        [k, n, m, inside @ ..] => match bad_word(*k, *n, *m) {
            Some(word) => Some(3 * p + word),
            None => first_bad_word(inside, p + 1),
        },
        _ => None,
    }
}

// The first layer that is a leaf early, or the last and no leaf, of words that start with layer p.
fn first_misplaced(ws: &[u64], p: u64) -> Option<u64>
    requires { (p + length ws.now ≤ limit.type_words) × (length ws.now % 3 ≡ 0) }
    ensures { of_place result ≡ misplaced p (layers ws.now) }
{
    match ws {
        [k, _, _] => holds_inner(*k).then_some(p),
        [k, _, _, inside @ ..] => {
            if holds_inner(*k) {
                first_misplaced(inside, p + 1)
            } else {
                Some(p)
            }
        }
        _ => None,
    }
}

// What the checks say first.
fn first_refusal(ws: &[u64]) -> Result<u64, Refused>
    ensures { of_result result ≡ check_of ws.now }
{
    let n = ws.len();
    if (n == 0) | (n > Limit::TYPE_WORDS) | (n % 3 != 0) {
        return Err(Refusal::BadCount.into());
    }
    if let Some(place) = first_bad_word(ws, 0) {
        return Err(Refused {
            refusal: Refusal::BadLayer,
            place,
        });
    }
    if let Some(place) = first_misplaced(ws, 0) {
        return Err(Refused {
            refusal: Refusal::BadLeaf,
            place,
        });
    }
    Ok((n / 3) as u64)
}

// The checks 1 to 3. Words that pass are told by a test that keeps no place; the others are looked at once more.
pub fn check_type(ws: &[u64]) -> Result<u64, Refused>
    ensures { of_result result ≡ check_of ws.now }
{
    if is_type(ws) {
        Ok((ws.len() / 3) as u64)
    } else {
        first_refusal(ws)
    }
}

// The checks of two types, left before right.
pub fn check_types(a: &[u64], b: &[u64]) -> Result<u64, Refused>
    ensures { of_result result ≡ next (check_of a.now) (check_of b.now) }
{
    if is_type(a) {
        check_type(b)
    } else {
        first_refusal(a)
    }
}
