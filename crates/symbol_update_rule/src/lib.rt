// Which line of the update's rule applies. In the Rust: in `do_update_symbol`.
#![tactic(auto)]

mod lines;

pub use lines::{Line, decide};
