ghost use Rattle.std.specs.Prelude.{◌≡◌};
ghost use Rattle.plan_steps.specs.Steps as steps;
ghost use Rattle.plan_steps.specs.AsCoded.{of_step, Spells, IsSpelled};

use type_numbers::{Limit, Mark, StepKind};

// A step's four words.
#[derive(Clone, Copy, Debug, PartialEq, Eq)]
pub struct Step {
    pub kind: u64,
    pub handle: u64,
    pub mark: u64,
    pub number: u64,
}

impl Step {
    #[tactic(auto, unfolding(crate::specs::Steps::good_step))]
    pub fn is_good(self) -> bool
        ensures { result ≡ steps.good_step (of_step self) }
    {
        let Step {
            kind,
            handle,
            mark,
            number,
        } = self;
        match kind {
            StepKind::ELEMENT => (handle <= Limit::NAME) & (mark <= Mark::YES) & (number == 0),
            StepKind::MEMBER => {
                (handle <= Limit::NAME)
                    & (mark <= Mark::OFFSET)
                    & ((mark == Mark::OFFSET) | (number == 0))
            }
            StepKind::AUTODESLICE => (handle == 0) & (mark <= Mark::BY_LENGTH) & (number == 0),
            _ => (kind <= StepKind::AUTOVIEW) & (handle == 0) & (mark == 0) & (number == 0),
        }
    }
}

impl From<[u64; 4]> for Step {
    ghost from_gives = { Spells };

    fn from(words: [u64; 4]) -> Step {
        let [kind, handle, mark, number] = words;
        Step {
            kind,
            handle,
            mark,
            number,
        }
    }
}

impl From<Step> for [u64; 4] {
    ghost from_gives = { IsSpelled };

    #[tactic(auto, unfolding(crate::specs::Steps::step_words))]
    fn from(step: Step) -> [u64; 4] {
        [step.kind, step.handle, step.mark, step.number]
    }
}
