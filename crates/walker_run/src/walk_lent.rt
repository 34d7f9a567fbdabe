ghost use Rattle.walker_run.specs.Walked as rules;
ghost use Rattle.walker_arrival.specs.Arrived.{HandsOut};

use crate::steps_taken::walk_among;
use symbol_columns::{Column, Symbol, Table};
use symbol_lent::gather;
use write_answer::Answer;

// Takes the steps from the known type, then the address where it is asked for, and writes the type that is reached.
// The parameters are those of the C face.
pub fn walk<'a>(
    known: &'a [u64],
    steps: &[u64],
    address: bool,
    table: &[Symbol],
    store: &'a [u64],
    out: &mut [u64],
) -> Answer
    ensures { HandsOut
        (rules.walk_to known.now steps.now address table.now store.now)
        result out.old out.new }
{
    let mut columns = [0u64; Column::WORDS];
    gather(table, &mut columns);
    let table = Table {
        columns: &columns,
        count: table.len(),
        store,
    };
    walk_among(&table, known, steps, address, out)
}
