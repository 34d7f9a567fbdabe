// A lent table of records with its store: put, poison, forward declare, get. In the Rust: `put_symbol`, `poison_symbol`, `forward_declare_symbol`, `get_symbol`.
#![tactic(auto)]

mod change;
mod get;
mod put;

pub use change::change_symbol;
pub use get::{get_symbol, get_type};
pub use put::{forward_declare_symbol, poison_symbol, put_symbol};
