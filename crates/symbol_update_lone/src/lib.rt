// The update of a record that stands alone with its words, answered by a Result and as C has it. In the Rust: `do_update_symbol`.
#![tactic(auto)]

mod lone;

pub use lone::{do_update_symbol, update_lone};
