use crate::case::{Case, FORWARD_TYPE, PUT_NOTHING, PUT_POISON, PUT_TYPE};
use crate::lent::{BEFORE, Fields, Lent, room};
use crate::runs::Reader;
use symbol_change::choose;
use symbol_columns::{Identifier, Symbol};
use symbol_get::get_among;
use symbol_operations::Operation;
use symbol_update_lone::update_lone;

// The numbers of b: a name and a mark, and how many words of the store are lent.
#[derive(Clone, Copy)]
struct Asked {
    name: Identifier,
    mark: u64,
    words: u64,
}

impl From<&[u64]> for Asked {
    fn from(numbers: &[u64]) -> Asked {
        let [id, authority, place, mark, words] = Reader { rest: numbers }.array::<5>();
        Asked {
            name: Identifier {
                id: u32::try_from(id).unwrap_or(0),
                authority: authority == 1,
                place,
            },
            mark,
            words,
        }
    }
}

// The table as the answer leaves it: with the record that was stored, where one was. The answer has its slot, its fields and
// its words.
fn left(case: &Case) -> Lent {
    let mut lent = Lent::from(case.table);
    if !case.written.is_empty() {
        let mut stored = Reader { rest: case.written };
        let slot = stored.word() as usize;
        lent.put(slot, Fields(stored.array()));
        lent.lay(slot, stored.rest);
    }
    lent
}

// Whether an update of the table's only record, lent alone, is the Rust's.
pub(crate) fn updates(case: &Case) -> bool {
    let mut table = Reader { rest: case.table };
    let _count = table.word();
    let mut symbol = Symbol::from(Fields(table.array()));
    let mut lent = Lent::from(case.table);
    let Asked { name, words, .. } = Asked::from(case.b);
    let effect = update_lone(&mut symbol, &mut lent.store[..room(words)], name, case.a);
    // The fields stand behind the slot where a record was stored, and behind the count where none was.
    let right = if case.written.is_empty() {
        case.table
    } else {
        case.written
    };
    let fields = Fields::from(symbol);
    case.is_answer(effect.map(u64::from).into())
        && right.get(1..7) == Some(fields.0.as_slice())
        && lent.store == left(case).store
}

fn operation(question: u64) -> Operation {
    match question {
        PUT_NOTHING => Operation::PutNothing,
        PUT_TYPE => Operation::PutType,
        PUT_POISON => Operation::PutPoison,
        FORWARD_TYPE => Operation::ForwardType,
        _ => Operation::ForwardPoison,
    }
}

// Whether an operation on a table is answered as the Rust does, and leaves the table so.
pub(crate) fn changes(case: &Case) -> bool {
    let before = Lent::from(case.table);
    let mut after = before;
    let Asked { name, mark, words } = Asked::from(case.b);
    let change = choose(
        &before.columns,
        before.records,
        &mut after.store[..room(words)],
        operation(case.question),
        name,
        mark,
        case.a,
    );
    if let Some((slot, symbol)) = change.ok().and_then(|c| c.stored) {
        after.put(slot, symbol.into());
    }
    let effect = change.map(|c| u64::from(c.effect));
    case.is_answer(effect.into()) && after == left(case)
}

// Whether what a table has under a name is what the Rust found.
pub(crate) fn gets(case: &Case) -> bool {
    let lent = Lent::from(case.table);
    let Asked { name, words, .. } = Asked::from(case.b);
    let mut place = BEFORE;
    let answer = get_among(&lent.table(words), name.id, name.authority, &mut place);
    case.is_answer(answer) && place == case.word_written(0)
}
