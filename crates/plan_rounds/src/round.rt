ghost use Rattle.std.specs.Prelude.{◌≡◌, ◌+◌, ◌≤◌, ◌++◌, cond, length, IfOk, IfErr};
ghost use Rattle.type_layers.specs.Layers.{layers};
ghost use Rattle.type_layers.specs.AsCoded.{Whole};
ghost use Rattle.plan_steps.specs.AsCoded.{of_step};
ghost use Rattle.plan_turn.specs.AsCoded.{of_turn, of_decided};
ghost use Rattle.plan_rounds.specs.Rounds as rules;
ghost use Rattle.plan_rounds.specs.AsCoded.{AllWhole, stored_in, Gives, Refuses};

use crate::steps::Steps;
use plan_steps::Step;
use plan_turn::{Turn, turn_of};
use symbol_columns::Table;
use symbol_members::member;
use type_layers::{inner, outer};
use type_numbers::{Mark, Refusal, StepKind};
use type_wellformed::is_wellformed;

// What a round decides of the current type and the first asked step.
#[tactic(auto, using(crate::proofs::Reading::inner))]
pub(crate) fn turn_at(cur: &[u64], asked: Step) -> Option<Turn>
    ensures { of_decided result ≡ rules.turn_at (layers cur.now) (of_step asked) }
{
    turn_of(outer(cur), outer(inner(cur)), asked.kind, asked.mark)
}

// The words of a member's type.
#[tactic(auto, using(crate::proofs::Reading::member))]
fn member_type<'a>(table: &Table<'_, 'a>, id: u64) -> Result<&'a [u64], Refusal>
    requires { AllWhole table.now }
    ensures ok { IfOk result (λ ws. Gives (rules.member_type (stored_in table.now id)) ws.now) }
    ensures err { IfErr result (Refuses (rules.member_type (stored_in table.now id))) }
{
    let words = member(table, id);
    if words.len() < 3 {
        Err(Refusal::NoMember)
    } else if !is_wellformed(words) {
        Err(Refusal::IllFormed)
    } else {
        Ok(words)
    }
}

// The words where a round goes on: a part of the current type's, or of the store.
#[tactic(auto, using(crate::proofs::Reading::inner), unfolding(plan_turn::specs::AsCoded::of_turn))]
pub(crate) fn onto<'a>(
    table: &Table<'_, 'a>,
    cur: &'a [u64],
    asked: Step,
    turn: Turn,
) -> Result<&'a [u64], Refusal>
    requires { Whole cur.now × AllWhole table.now }
    ensures ok { IfOk result (λ ws. Gives (rules.goes (stored_in table.now) (layers cur.now) (of_step asked) (of_turn turn)) ws.now) }
    ensures err { IfErr result (Refuses (rules.goes (stored_in table.now) (layers cur.now) (of_step asked) (of_turn turn))) }
{
    match turn {
        Turn::Auto(_) | Turn::Element(_) | Turn::Desliced(_) => Ok(inner(cur)),
        Turn::ElementThrough(_) => Ok(inner(inner(cur))),
        Turn::Member => member_type(table, asked.handle),
    }
}

// Whether a round takes the asked step.
#[tactic(auto, unfolding(plan_turn::specs::AsCoded::of_turn))]
pub(crate) fn takes(turn: Turn) -> bool
    ensures { cond result 1 0 ≡ rules.taken_by (of_turn turn) }
{
    !matches!(turn, Turn::Auto(_))
}

// Adds a round's steps to the plan.
#[tactic(auto, unfolding(plan_turn::specs::AsCoded::of_turn))]
pub(crate) fn add(plan: &mut Steps, asked: Step, turn: Turn)
    requires { length plan.old + 2 ≤ 144 }
    ensures { plan.new ≡ plan.old ++ rules.steps_of (of_step asked) (of_turn turn) }
{
    match turn {
        Turn::Auto(kind) => plan.push(Step::from([kind, 0, 0, 0])),
        Turn::Element(mark) | Turn::ElementThrough(mark) => {
            plan.push(Step::from([StepKind::ELEMENT, asked.handle, mark, 0]));
        }
        Turn::Desliced(mark) => {
            plan.push(Step::from([StepKind::AUTODESLICE, 0, mark, 0]));
            plan.push(Step::from([StepKind::ELEMENT, asked.handle, Mark::NO, 0]));
        }
        Turn::Member => plan.push(asked),
    }
}
