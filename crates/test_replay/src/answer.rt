use crate::case::Case;
use crate::lent::BEFORE;
use crate::runs::Reader;
use trestlejay::Answer;

// The answer to a question by the function's number, in the header's order. Some write behind the two pointers.
fn ask(f: u64, a: &[u64], b: &[u64], first: &mut u64, second: &mut u64) -> Answer {
    match f {
        0 => trestlejay::tj_check(a),
        1 => trestlejay::tj_is_wellformed(a),
        2 => trestlejay::tj_is_void(a),
        3 => trestlejay::tj_is_integral(a),
        4 => trestlejay::tj_is_signed(a),
        5 => trestlejay::tj_is_bitfield(a),
        6 => trestlejay::tj_is_slice_pointer(a),
        7 => trestlejay::tj_can_be_sized(a),
        8 => trestlejay::tj_can_be_struct_member(a),
        9 => trestlejay::tj_can_be_word_member(a),
        10 => trestlejay::tj_can_be_constant(a),
        11 => trestlejay::tj_can_be_variable(a),
        12 => trestlejay::tj_can_be_parameter(a),
        13 => trestlejay::tj_can_be_returned(a),
        14 => trestlejay::tj_get_element_type(a),
        15 => trestlejay::tj_get_pointee_type(a),
        16 => trestlejay::tj_get_viewee_type(a),
        17 => trestlejay::tj_fully_dereferenced(a),
        18 => trestlejay::tj_pointer_depth(a),
        19 => trestlejay::tj_known_size_in_bytes_as_word_member(a, first),
        20 => trestlejay::tj_stored_size(a, Reader { rest: b }.word(), first),
        21 => trestlejay::tj_min_i128(a, first, second),
        22 => trestlejay::tj_max_u128(a, first, second),
        23 => trestlejay::tj_identical(a, b),
        24 => trestlejay::tj_equals(a, b),
        25 => trestlejay::tj_is_like(a, b),
        26 => trestlejay::tj_can_be_declared_as(a, b),
        27 => trestlejay::tj_can_be_concretization_of(a, b),
        28 => trestlejay::tj_coerces(a, b),
        29 => trestlejay::tj_can_autoderef_into(a, b),
        _ => trestlejay::tj_can_subautoderef_into(a, b),
    }
}

// Whether the answer to a question about types, and what stands behind the pointers, are the Rust's.
pub(crate) fn answers(case: &Case) -> bool {
    let mut first = BEFORE;
    let mut second = BEFORE;
    let answer = ask(case.question, case.a, case.b, &mut first, &mut second);
    case.is_answer(answer) && first == case.word_written(0) && second == case.word_written(1)
}
