ghost use Rattle.std.specs.Prelude.{◌≡◌, ◌≤◌};
ghost use Rattle.type_numbers.specs.Limit as limit;
ghost use Rattle.type_layers.specs.Answer.{of_result};
ghost use Rattle.type_layers.specs.AsCoded.{Whole};
ghost use Rattle.plan_report.specs.Report as report;
ghost use Rattle.planner.specs.Plans as answers;
ghost use Rattle.planner.specs.AsCoded as to;

use plan_report::Report;
use plan_rounds::{Question, plan_in_rounds};
use plan_steps::check_steps;
use symbol_columns::Table;
use symbol_order::in_order;
use type_first_refusal::check_type;
use type_layers::Refused;
use type_numbers::{Limit, Refusal};
use type_wellformed::is_wellformed;

fn check_limits(asked: &[u64], rounds: u64) -> Result<u64, Refused>
    ensures { of_result result ≡ answers.limits asked.now rounds }
{
    if rounds > Limit::ROUNDS {
        return Err(Refusal::BadRequest.into());
    }
    check_steps(asked, Limit::ASKED)
}

// The checks of the types, the asked steps and the rounds.
fn check_question(question: &Question<'_>) -> Result<u64, Refused>
    ensures { of_result result ≡ to.question_of question.now }
{
    check_type(question.known)?;
    check_type(question.target)?;
    check_limits(question.asked, question.rounds)
}

// The plan of a question that passed its checks.
fn plan_checked(
    table: &Table<'_, '_>,
    question: &Question<'_>,
    steps: &mut [u64],
    ty: &mut [u64],
) -> Result<Report, Refused>
    requires { Whole question.now.known.now × Whole question.now.target.now × (question.now.rounds ≤ limit.rounds) }
    ensures { report.DeliversResult (to.planned_of table.now question.now)
        result steps.old steps.new ty.old ty.new }
{
    if !in_order(table) {
        return Err(Refusal::TableNotInOrder.into());
    }
    if !is_wellformed(question.known) {
        return Err(Refusal::IllFormed.into());
    }
    if !is_wellformed(question.target) {
        return Err(Refusal::IllFormed.into());
    }
    plan_in_rounds(table, question, steps, ty)
}

// The plan of any question.
fn plan_question(
    table: &Table<'_, '_>,
    question: &Question<'_>,
    steps: &mut [u64],
    ty: &mut [u64],
) -> Result<Report, Refused>
    ensures { report.DeliversResult (to.answer_to table.now question.now)
        result steps.old steps.new ty.old ty.new }
{
    check_question(question)?;
    plan_checked(table, question, steps, ty)
}

// The plan of a question about a table that is given by its columns, as gather makes them.
pub fn plan_among(
    table: &Table<'_, '_>,
    question: &Question<'_>,
    steps: &mut [u64],
    ty: &mut [u64],
) -> Report
    ensures { report.Delivers (to.answer_to table.now question.now)
        result steps.old steps.new ty.old ty.new }
{
    Report::from(plan_question(table, question, steps, ty))
}
