// The update of one record with its words, by the line that applies. In the Rust: in `do_update_symbol`.
#![tactic(auto)]

mod update_record;

pub use update_record::{typed, update};
