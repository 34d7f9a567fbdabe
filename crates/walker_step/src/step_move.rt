ghost use Rattle.std.specs.Prelude.{◌≡◌};
ghost use Rattle.type_layers.specs.Layers as layers;
ghost use Rattle.walker_step.specs.AsCoded as rules;

use plan_steps::Step;
use type_layers::{inner, outer};
use type_numbers::{Kind, Mark, StepKind};

// What a step does.
#[derive(Clone, Copy, Debug, PartialEq, Eq)]
pub enum Move {
    // One layer in.
    Inside,
    // Two layers in.
    TwoInside,
    // The outer layer turns into Arraylike.
    Deslice,
    // To the member's type.
    Member,
}

// What a step does to a type of the outer kind k with the kind l inside, where it does not stick; there: whether the
// member's type is there.
#[tactic(auto, unfolding(crate::specs::AsCoded::move_of))]
pub fn move_of(step: Step, k: u64, l: u64, there: bool) -> Option<Move>
    ensures { result ≡ rules.move_of step.kind step.mark k l there }
{
    let mark = step.mark;
    match (step.kind, k) {
        (
            StepKind::ELEMENT,
            Kind::ARRAY | Kind::ARRAY_WITH_NAMED_LENGTH | Kind::ENDLESS_ARRAY | Kind::ARRAYLIKE,
        ) => Some(Move::Inside),
        (StepKind::ELEMENT, Kind::POINTER | Kind::VIEW) if l == Kind::ARRAYLIKE => {
            Some(Move::TwoInside)
        }
        (StepKind::MEMBER, Kind::STRUCT | Kind::WORD) if there => Some(Move::Member),
        (StepKind::AUTODESLICE, Kind::SLICE) if mark == Mark::BY_VIEW => Some(Move::Deslice),
        (StepKind::AUTODESLICE, Kind::SLICE_POINTER) if mark == Mark::BY_POINTER => {
            Some(Move::Deslice)
        }
        (StepKind::AUTODEREF, Kind::POINTER) | (StepKind::AUTOVIEW, Kind::VIEW) => {
            Some(Move::Inside)
        }
        _ => None,
    }
}

// The outer kind of the type at these words, where desliced tells that its outer layer counts as Arraylike.
#[tactic(auto, unfolding(crate::specs::AsCoded::seen, type_layers::specs::Layers::outer))]
pub fn kind_of(cur: &[u64], desliced: bool) -> u64
    ensures { result ≡ layers.outer (rules.seen cur.now desliced) }
{
    if desliced {
        Kind::ARRAYLIKE
    } else {
        outer(cur)
    }
}

// The words where a move leads: a part of the current ones, or the member's. Where a step sticks, the current ones.
#[tactic(auto, unfolding(crate::specs::AsCoded::onward))]
pub fn go<'a>(m: Option<Move>, cur: &'a [u64], stored: &'a [u64]) -> &'a [u64]
    ensures { result.now ≡ rules.onward m cur.now stored.now }
{
    match m {
        None | Some(Move::Deslice) => cur,
        Some(Move::Inside) => inner(cur),
        Some(Move::TwoInside) => inner(inner(cur)),
        Some(Move::Member) => stored,
    }
}

// Whether the outer layer counts as Arraylike after a move.
#[tactic(auto, unfolding(crate::specs::AsCoded::desliced))]
pub fn is_desliced(m: Option<Move>) -> bool
    ensures { result ≡ rules.desliced m }
{
    matches!(m, Some(Move::Deslice))
}
