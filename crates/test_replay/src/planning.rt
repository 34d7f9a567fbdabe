use crate::case::Case;
use crate::lent::{Lent, blank, room, written};
use crate::runs::Reader;
use planner::{Question, Report, plan_among};
use walker_run::walk_among;

// Whether a plan is the Rust's. The answer has five fields, which are 0 where nothing was written, the steps and the type.
// b: the depth, the rounds, the words lent for the steps and for the type, the store's words.
pub(crate) fn plans(case: &Case) -> bool {
    let [depth, rounds, for_steps, for_type, for_store] = Reader { rest: case.b }.array::<5>();
    let lent = Lent::from(case.table);
    let mut steps = blank();
    let mut ty = blank();
    let question = Question {
        known: case.a,
        asked: case.steps,
        target: case.target,
        level: u8::try_from(depth).unwrap_or(255),
        rounds,
    };
    let report = plan_among(
        &lent.table(for_store),
        &question,
        &mut steps[..room(for_steps)],
        &mut ty[..room(for_type)],
    );
    let mut answer = Reader { rest: case.written };
    let told = answer.array();
    let right = answer.words(told[0].saturating_mul(4));
    is_report(case, report, told) && steps == written(right) && ty == written(answer.rest)
}

// Whether a report is the Rust's: the refusal and its place, and the five fields.
fn is_report(case: &Case, r: Report, fields: [u64; 5]) -> bool {
    let [steps, taken, layers, address, coerced] = fields;
    r.refusal == case.answer.refusal
        && r.value == case.answer.value
        && r.steps == steps
        && r.taken == taken
        && r.layers == layers
        && r.address == (address == 1)
        && r.coerced == (coerced == 1)
}

// Whether a walk is the Rust's. b: 1 where the address is asked for, the words lent, two that are 0, the store's words.
pub(crate) fn walks(case: &Case) -> bool {
    let [address, words, _, _, for_store] = Reader { rest: case.b }.array::<5>();
    let lent = Lent::from(case.table);
    let mut out = blank();
    let answer = walk_among(
        &lent.table(for_store),
        case.a,
        case.steps,
        address == 1,
        &mut out[..room(words)],
    );
    case.is_answer(answer) && out == written(case.written)
}
