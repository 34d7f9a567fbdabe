// The C face: each question as a function, as `include/trestlejay.h` declares it; `trestlejay_c` exports them.
#![tactic(auto)]

mod fixing;
mod measures;
mod parts;
mod plans;
mod properties;
mod records;
mod relations;
mod roles;
mod sheets;
mod strings;

pub use fixing::tj_fix_type_for_flags;
pub use measures::{
    tj_known_size_in_bytes_as_word_member, tj_max_u128, tj_min_i128, tj_pointer_depth,
    tj_stored_size,
};
pub use parts::{
    tj_fully_dereferenced, tj_get_element_type, tj_get_pointee_type, tj_get_viewee_type,
};
pub use planner::Report;
pub use plans::{tj_autoderef, tj_walk};
pub use properties::{
    tj_check, tj_is_bitfield, tj_is_integral, tj_is_signed, tj_is_slice_pointer, tj_is_void,
    tj_is_wellformed,
};
pub use records::{
    tj_forward_declare_poison, tj_forward_declare_type, tj_get_symbol, tj_put_nothing,
    tj_put_poison, tj_put_type, tj_update_symbol,
};
pub use relations::{
    tj_can_autoderef_into, tj_can_be_concretization_of, tj_can_be_declared_as,
    tj_can_subautoderef_into, tj_coerces, tj_equals, tj_identical, tj_is_like,
};
pub use roles::{
    tj_can_be_constant, tj_can_be_parameter, tj_can_be_returned, tj_can_be_sized,
    tj_can_be_struct_member, tj_can_be_variable, tj_can_be_word_member,
};
pub use sheets::tj_read_sheet;
pub use strings::{tj_for_string_literal, tj_for_string_slice};
pub use symbol_columns::Symbol;
pub use write_answer::Answer;
