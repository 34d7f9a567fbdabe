ghost use Rattle.plan_report.specs.Report as report;
ghost use Rattle.planner.specs.Plans as answers;
ghost use Rattle.walker_run.specs.Walked as walks;
ghost use Rattle.walker_arrival.specs.Arrived.{HandsOut};

use planner::{Report, autoderef};
use symbol_columns::Symbol;
use walker_run::walk;
use write_answer::Answer;

pub fn tj_autoderef<'a>(
    known: &'a [u64],
    asked: &[u64],
    target: &'a [u64],
    level: u8,
    rounds: u64,
    table: &[Symbol],
    store: &'a [u64],
    steps: &mut [u64],
    ty: &mut [u64],
) -> Report
    ensures { report.Delivers
        (answers.plan_answer table.now store.now
        known.now asked.now target.now level rounds)
        result steps.old steps.new ty.old ty.new }
{
    autoderef(known, asked, target, level, rounds, table, store, steps, ty)
}

pub fn tj_walk<'a>(
    known: &'a [u64],
    steps: &[u64],
    address: bool,
    table: &[Symbol],
    store: &'a [u64],
    out: &mut [u64],
) -> Answer
    ensures { HandsOut
        (walks.walk_to known.now steps.now address table.now store.now)
        result out.old out.new }
{
    walk(known, steps, address, table, store, out)
}
