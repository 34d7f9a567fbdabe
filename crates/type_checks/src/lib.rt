// The checks 1 to 3 of a type's words: what passes them.
#![tactic(auto)]

mod good_layers;
mod type_test;

pub use type_test::is_type;
