ghost use Rattle.std.specs.Prelude.{◌≡◌, ◌+◌, ◌*◌, ◌≤◌, ◌<◌, List, [], ◌∷◌, ◌++◌, length, take, replicate};
ghost use Rattle.plan_steps.specs.Steps as rules;
ghost use Rattle.plan_steps.specs.AsCoded.{of_step};

use plan_steps::{Step, write_step};
use std::marker::Model;
use type_numbers::Limit;

// The steps of a plan so far; in an array, since the library has no heap. It has room for all the steps that a plan can
// have: 64 rounds add at most two each, and the settling at most 16.
#[derive(Drop)]
pub(crate) struct Steps {
    words: [u64; Limit::PLAN_WORDS],
    count: usize,
}

impl Model for Steps {
    ghost Value = { List rules.Step };

    ghost view = { λ s. rules.steps (take (4 * s.count) s.words) };

    ghost invariant = { λ s. 4 * s.count ≤ 576 };
}

impl Steps {
    #[tactic(auto, unfolding(plan_steps::specs::Steps::steps))]
    pub(crate) fn new() -> Steps
        ensures { result ≡ [] }
    {
        Steps {
            words: [0; Limit::PLAN_WORDS],
            count: 0,
        }
    }

    #[tactic(auto, using(crate::proofs::Stepping::stepping))]
    pub(crate) fn push(&mut self, step: Step)
        requires { length self.old < 144 }
        ensures { self.new ≡ self.old ++ of_step step ∷ [] }
    {
        write_step(&mut self.words, 4 * self.count, step);
        self.count += 1;
    }

    // The same step, so many times.
    #[tactic(auto, using(crate::proofs::Stepping::stepping))]
    pub(crate) fn repeat(&mut self, step: Step, times: u64)
        requires { length self.old + times ≤ 144 }
        ensures { self.new ≡ self.old ++ replicate times (of_step step) }
    {
        for _ in 0..times {
            self.push(step);
        }
    }

    #[tactic(auto, using(crate::proofs::Stepping::stepping))]
    pub(crate) fn words(&self) -> &[u64]
        ensures { result.now ≡ rules.step_words self.now }
    {
        &self.words[..4 * self.count]
    }
}
