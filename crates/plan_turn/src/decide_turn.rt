ghost use Rattle.std.specs.Prelude.{◌≡◌};
ghost use Rattle.plan_turn.specs.AsCoded.{of_decided};
ghost use Rattle.plan_turn.specs.Round as rules;

use crate::turn::Turn;
use type_numbers::{Kind, Mark, StepKind};

// One round's decision, where a step fits: k is the current type's outer kind and l the kind inside, of the asked
// step's kind and mark.
#[tactic(auto, unfolding(crate::specs::AsCoded::of_turn, crate::specs::Round::turn))]
pub fn turn_of(k: u64, l: u64, asked: u64, mark: u64) -> Option<Turn>
    ensures { of_decided result ≡ rules.turn k l asked mark }
{
    match (asked, k) {
        (StepKind::ELEMENT, Kind::POINTER | Kind::VIEW) if l == Kind::ARRAYLIKE => {
            Some(Turn::ElementThrough(mark))
        }
        (_, Kind::POINTER) => Some(Turn::Auto(StepKind::AUTODEREF)),
        (_, Kind::VIEW) => Some(Turn::Auto(StepKind::AUTOVIEW)),
        (StepKind::ELEMENT, Kind::ARRAY | Kind::ARRAY_WITH_NAMED_LENGTH) => {
            Some(Turn::Element(Mark::NO))
        }
        (StepKind::ELEMENT, Kind::ENDLESS_ARRAY | Kind::ARRAYLIKE) => {
            Some(Turn::Element(Mark::YES))
        }
        (StepKind::ELEMENT, Kind::SLICE) => Some(Turn::Desliced(Mark::BY_VIEW)),
        (StepKind::ELEMENT, Kind::SLICE_POINTER) => Some(Turn::Desliced(Mark::BY_POINTER)),
        (StepKind::MEMBER, Kind::STRUCT | Kind::WORD) => Some(Turn::Member),
        _ => None,
    }
}
