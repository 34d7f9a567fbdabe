// When a table in columns is in order with its store, in one pass.
#![tactic(auto)]

mod order;

pub use order::in_order;
