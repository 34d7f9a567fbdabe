ghost use Rattle.std.specs.Prelude.{◌≡◌, ◌≤◌, [], length, IfOk, IfErr};
ghost use Rattle.type_numbers.specs.Limit as limit;
ghost use Rattle.type_numbers.specs.Refusal.{number_of};
ghost use Rattle.type_layers.specs.Layers.{layers};
ghost use Rattle.type_layers.specs.AsCoded.{Whole};
ghost use Rattle.plan_report.specs.Report as report;
ghost use Rattle.plan_rounds.specs.Rounds.{ended, stopped};
ghost use Rattle.plan_rounds.specs.AsCoded.{AllWhole, rounds_of, plan_in_rounds};

use crate::finish::finish;
use crate::question::Question;
use crate::round::{add, onto, takes, turn_at};
use crate::steps::Steps;
use plan_report::Report;
use plan_steps::Step;
use symbol_columns::Table;
use type_layers::Refused;
use type_numbers::Refusal;

// Goes from the known type along the asked steps, at most so many rounds, and stops as soon as no asked step is left: where
// that ends, and how many asked steps are taken.
fn go_along<'a>(
    table: &Table<'_, 'a>,
    question: &Question<'a>,
    plan: &mut Steps,
) -> Result<(&'a [u64], u64), Refusal>
    requires whole { Whole question.now.known.now × (question.now.rounds ≤ limit.rounds) × (plan.old ≡ []) }
    requires all_whole { AllWhole table.now }
    ensures ok { IfOk result (λ end. (rounds_of table.now question.now ≡ ended plan.new end.1 (layers end.0.now))
        × Whole end.0.now × (length plan.new ≤ 128)) }
    ensures err { IfErr result (λ e. rounds_of table.now question.now ≡ stopped (number_of e)) }
{
    let mut cur = question.known;
    let mut rest = question.asked;
    let mut taken = 0;
    for _ in 0..question.rounds {
        let [kind, handle, mark, number, left @ ..] = rest else {
            break;
        };
        let asked = Step::from([*kind, *handle, *mark, *number]);
        let Some(turn) = turn_at(cur, asked) else {
            return Err(Refusal::NoStepFits);
        };
        cur = onto(table, cur, asked, turn)?;
        add(plan, asked, turn);
        if takes(turn) {
            rest = left;
            taken += 1;
        }
    }
    Ok((cur, taken))
}

// The plan of a question: its rounds, and their settling. The two outputs stay apart, also in the crates above: one value
// with two `&mut` is no plainer in a clause.
pub fn plan_in_rounds(
    table: &Table<'_, '_>,
    question: &Question<'_>,
    steps: &mut [u64],
    ty: &mut [u64],
) -> Result<Report, Refused>
    requires whole { Whole question.now.known.now × Whole question.now.target.now × (question.now.rounds ≤ limit.rounds) }
    requires all_whole { AllWhole table.now }
    ensures { report.DeliversResult
        (plan_in_rounds table.now question.now)
        result steps.old steps.new ty.old ty.new }
{
    let mut plan = Steps::new();
    let (cur, taken) = go_along(table, question, &mut plan)?;
    finish(question, cur, taken, &mut plan, steps, ty)
}
