use crate::case::Case;
use crate::lent::{blank, room, written};
use crate::runs::Reader;
use trestlejay::tj_fix_type_for_flags;

// Whether the answer and every word of the buffer are the Rust's. b: 1 where the type is extern, the context, the words lent.
pub(crate) fn fixes(case: &Case) -> bool {
    let [external, context, words] = Reader { rest: case.b }.array::<3>();
    let mut out = blank();
    let answer = tj_fix_type_for_flags(case.a, external == 1, context, &mut out[..room(words)]);
    case.is_answer(answer) && out == written(case.written)
}
