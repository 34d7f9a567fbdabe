ghost use Rattle.std.specs.Prelude.{◌≤◌, length};
ghost use Rattle.type_layers.specs.Layers.{layers};
ghost use Rattle.type_layers.specs.AsCoded.{Whole};
ghost use Rattle.plan_report.specs.Report as report;
ghost use Rattle.plan_rounds.specs.AsCoded.{finished};

use crate::question::Question;
use crate::steps::Steps;
use plan_ending::{body_of, ending_of};
use plan_report::{Draft, Report, deliver};
use plan_settling::settle;
use plan_steps::Step;
use type_layers::Refused;
use type_size_and_depth::depth;

// Settles the rounds that ended on cur, with the plan's steps so far, and writes the plan.
pub(crate) fn finish(
    question: &Question<'_>,
    cur: &[u64],
    taken: u64,
    plan: &mut Steps,
    steps: &mut [u64],
    ty: &mut [u64],
) -> Result<Report, Refused>
    requires { Whole cur.now × Whole question.now.target.now × (length plan.old ≤ 128) }
    ensures { report.DeliversResult
        (finished plan.old taken (layers cur.now) (layers question.now.target.now) question.now.level)
        result steps.old steps.new ty.old ty.new }
{
    let target = question.target;
    let level = u64::from(question.level);
    let settling = settle(cur, target, level);
    let ending = ending_of(settling, depth(cur), level)?;
    plan.repeat(Step::from([ending.kind, 0, 0, 0]), ending.extra);
    let draft = Draft {
        steps: plan.words(),
        taken,
        ending,
        body: body_of(settling, cur, target),
    };
    deliver(&draft, steps, ty)
}
