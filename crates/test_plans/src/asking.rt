ghost use Rattle.std.specs.Prelude.{◌<◌};

use crate::members::{RECORDS, columns, store};
use crate::questions::ASKED;
use crate::report::outcome;
use crate::types::TYPES;
use planner::{Question, plan_among};
use std::io;
use symbol_columns::Table;

// What stands in an output before.
const BEFORE: u64 = 7;

// What a plan is given beside its types and asked steps: the table's records, the depth, the rounds, and the words lent for
// the steps and for the type.
#[derive(Clone, Copy)]
pub(crate) struct Given {
    pub records: usize,
    pub level: u8,
    pub rounds: u64,
    pub room: usize,
    pub wide: usize,
}

pub(crate) const USUAL: Given = Given {
    records: RECORDS,
    level: 0,
    rounds: 64,
    room: 576,
    wide: 48,
};

// Asks, and writes what became of it.
pub(crate) fn ask(
    rt: &impl Print,
    g: Given,
    known: &[u64],
    asked: &[u64],
    target: &[u64],
) -> io::Result<()> {
    let columns = columns();
    let store = store();
    let table = Table {
        columns: &columns,
        count: g.records,
        store: &store,
    };
    let question = Question {
        known,
        asked,
        target,
        level: g.level,
        rounds: g.rounds,
    };
    let mut steps = [BEFORE; 576];
    let mut ty = [BEFORE; 48];
    let report = plan_among(
        &table,
        &question,
        &mut steps[..g.room.min(576)],
        &mut ty[..g.wide.min(48)],
    );
    outcome(rt, report, &steps, &ty)
}

// A question by its places in the lists.
pub(crate) fn line(rt: &impl Print, i: usize, j: usize, k: usize, g: Given) -> io::Result<()>
    requires known { i < 26 }
    requires asked { j < 16 }
    requires target { k < 26 }
{
    print!(rt; "{i} {j} {k} {} {}:", g.level, g.rounds)?;
    let known = TYPES[i].as_flattened();
    ask(rt, g, known, ASKED[j], TYPES[k].as_flattened())
}

// From every type along every run of asked steps, to an Int32.
pub(crate) fn along(rt: &impl Print) -> io::Result<()> {
    for i in 0..TYPES.len() {
        for j in 0..ASKED.len() {
            line(rt, i, j, 0, USUAL)?;
        }
    }
    Ok(())
}

// Every type for every target, at the depths 0 to 2.
pub(crate) fn settled(rt: &impl Print) -> io::Result<()> {
    for i in 0..TYPES.len() {
        for k in 0..TYPES.len() {
            for level in 0..3 {
                line(rt, i, 0, k, Given { level, ..USUAL })?;
            }
        }
    }
    Ok(())
}
