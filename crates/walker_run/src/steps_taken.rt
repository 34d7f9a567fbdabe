ghost use Rattle.std.specs.Prelude.{◌≡◌, true};
ghost use Rattle.type_layers.specs.AsCoded.{Whole};
ghost use Rattle.symbol_columns.specs.Table.{records};
ghost use Rattle.symbol_order.specs.Order.{in_order};
ghost use Rattle.write_type.specs.Outcome.{Writes};
ghost use Rattle.walker_run.specs.Walked as rules;
ghost use Rattle.walker_arrival.specs.Arrived.{HandsOut};

use plan_steps::{Step, check_steps};
use symbol_columns::Table;
use symbol_order::in_order;
use type_first_refusal::check_type;
use type_layers::{Refused, inner, outer};
use type_numbers::{Limit, Refusal};
use walker_arrival::arrive;
use walker_rule::asked_member;
use walker_step::{go, is_desliced, kind_of, move_of};
use write_answer::Answer;

// Takes the steps, one after the other, and arrives.
fn take_steps(
    table: &Table<'_, '_>,
    known: &[u64],
    steps: &[u64],
    address: bool,
    out: &mut [u64],
) -> Result<u64, Refused>
    requires { Whole known.now × (in_order (records table.now) table.now.store.now ≡ true) }
    ensures { Writes
        (rules.walk_from known.now steps.now address (records table.now) table.now.store.now)
        result out.old out.new }
{
    let mut cur = known;
    let mut desliced = false;
    let mut rest = steps;
    let mut place = 0;
    while let [kind, handle, mark, number, left @ ..] = rest {
        let step = Step::from([*kind, *handle, *mark, *number]);
        let stored = asked_member(table, step);
        let k = kind_of(cur, desliced);
        let l = outer(inner(cur));
        let next_move = move_of(step, k, l, stored.len() >= 3);
        let sticks = next_move.is_none();
        if sticks {
            let refusal = Refusal::NoStepFits;
            return Err(Refused { refusal, place });
        }
        cur = go(next_move, cur, stored);
        desliced = is_desliced(next_move);
        rest = left;
        place += 1;
    }
    arrive(out, cur, desliced, address)
}

// The walk of any words, with any table in columns.
fn walk_checked(
    table: &Table<'_, '_>,
    known: &[u64],
    steps: &[u64],
    address: bool,
    out: &mut [u64],
) -> Result<u64, Refused>
    ensures { Writes
        (rules.walk_to known.now steps.now address (records table.now) table.now.store.now)
        result out.old out.new }
{
    check_type(known)?;
    check_steps(steps, Limit::WALKED)?;
    if !in_order(table) {
        return Err(Refusal::TableNotInOrder.into());
    }
    take_steps(table, known, steps, address, out)
}

// The walk with a table in columns.
pub fn walk_among(
    table: &Table<'_, '_>,
    known: &[u64],
    steps: &[u64],
    address: bool,
    out: &mut [u64],
) -> Answer
    ensures { HandsOut
        (rules.walk_to known.now steps.now address (records table.now) table.now.store.now)
        result out.old out.new }
{
    Answer::from(walk_checked(table, known, steps, address, out))
}
