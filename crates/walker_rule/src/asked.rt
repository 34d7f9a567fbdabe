ghost use Rattle.std.specs.Prelude.{◌≡◌};
ghost use Rattle.walker_rule.specs.AsCoded.{asked_in};

use plan_steps::Step;
use symbol_columns::Table;
use symbol_members::member;
use type_numbers::StepKind;

// The words of a member's type where the step is a Member; else no words.
#[tactic(auto, unfolding(crate::specs::AsCoded::asked_in))]
pub fn asked_member<'s>(table: &Table<'_, 's>, step: Step) -> &'s [u64]
    ensures { result.now ≡ asked_in table.now.columns.now table.now.count table.now.store.now step.kind step.handle }
{
    let store = table.store;
    match step.kind {
        StepKind::MEMBER => member(table, step.handle),
        _ => &store[..0],
    }
}
