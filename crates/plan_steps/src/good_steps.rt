ghost use Rattle.std.specs.Prelude.{◌≡◌};
ghost use Rattle.type_layers.specs.Answer.{of_result};
ghost use Rattle.plan_steps.specs.Steps.{steps, good_steps, steps_answer};

use crate::step::Step;
use type_layers::Refused;
use type_numbers::Refusal;

#[tactic(auto, using(crate::proofs::Passing::good_by_first))]
fn are_good(ws: &[u64]) -> bool
    ensures { result ≡ good_steps (steps ws.now) }
{
    let mut left = ws;
    while let [kind, handle, mark, number, rest @ ..] = left {
        if !Step::from([*kind, *handle, *mark, *number]).is_good() {
            return false;
        }
        left = rest;
    }
    true
}

// Whether words are steps, and at most so many: their number.
#[tactic(auto, unfolding(crate::specs::Steps::steps_answer))]
pub fn check_steps(ws: &[u64], most: u64) -> Result<u64, Refused>
    ensures { of_result result ≡ steps_answer most ws.now }
{
    let count = (ws.len() / 4) as u64;
    if (ws.len() % 4 == 0) && (count <= most) && are_good(ws) {
        Ok(count)
    } else {
        Err(Refusal::BadRequest.into())
    }
}
