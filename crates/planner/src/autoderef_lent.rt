ghost use Rattle.plan_report.specs.Report as report;
ghost use Rattle.planner.specs.Plans as answers;

use crate::plan_checks::plan_among;
use plan_report::Report;
use plan_rounds::Question;
use symbol_columns::{Column, Symbol, Table};
use symbol_lent::gather;

// Plans the asked steps from the known type, and writes the plan's steps and its reported type. The parameters are those of
// the C face.
pub fn autoderef<'a>(
    known: &'a [u64],
    asked: &[u64],
    target: &'a [u64],
    level: u8,
    rounds: u64,
    table: &[Symbol],
    store: &'a [u64],
    steps: &mut [u64],
    ty: &mut [u64],
) -> Report
    ensures { report.Delivers
        (answers.plan_answer table.now store.now
        known.now asked.now target.now level rounds)
        result steps.old steps.new ty.old ty.new }
{
    let mut columns = [0u64; Column::WORDS];
    gather(table, &mut columns);
    let table = Table {
        columns: &columns,
        count: table.len(),
        store,
    };
    let question = Question {
        known,
        asked,
        target,
        level,
        rounds,
    };
    plan_among(&table, &question, steps, ty)
}
