ghost use Rattle.std.specs.Prelude.{◌≡◌};
ghost use Rattle.plan_steps.specs.AsCoded.{of_step, put_step};

use crate::step::Step;

// Writes a step's four words over those from `at` on; nothing where they do not fit.
#[tactic(auto, unfolding(crate::specs::Steps::step_words, crate::specs::AsCoded::put_step))]
pub fn write_step(buf: &mut [u64], at: usize, step: Step)
    ensures { buf.new ≡ put_step (of_step step) at buf.old }
{
    let words: [u64; 4] = step.into();
    if (buf.len() >= 4) && (at <= buf.len() - 4) {
        buf[at..at + 4].copy_from_slice(&words);
    }
}
