ghost use Rattle.std.specs.Prelude.{◌≡◌};
ghost use Rattle.type_layers.specs.Answer.{is_given};
ghost use Rattle.type_checks.specs.Check.{check_of};
ghost use Rattle.type_checks.specs.AsCoded.{good_words};

use crate::good_layers::{good_holder, good_leaf};
use type_numbers::Limit;

// Whether words are layers that hold an inner type, one after the other, and a leaf.
#[tactic(auto, using(crate::proofs::Passing::layers_by))]
fn are_layers(ws: &[u64]) -> bool
    ensures { result ≡ good_words ws.now }
{
    match ws {
        [k, n, m] => good_leaf(*k, *n, *m),
        [k, n, m, inside @ ..] => good_holder(*k, *n, *m) && are_layers(inside),
        _ => false,
    }
}

// Whether words pass the checks 1 to 3.
#[tactic(auto, using(crate::proofs::Passing::passes_by, crate::proofs::Passing::fails_by))]
pub fn is_type(ws: &[u64]) -> bool
    ensures { result ≡ is_given (check_of ws.now) }
{
    ws.len() <= Limit::TYPE_WORDS && are_layers(ws)
}
