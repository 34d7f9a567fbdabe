// An act on a table in columns: its slot, the new record, the answer.
#![tactic(auto)]

mod change;

pub use change::{Change, choose};
