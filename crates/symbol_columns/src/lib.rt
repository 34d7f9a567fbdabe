// `Symbol`; the records of a table as six columns of words; the words of a slot and of the type that stands there. In the Rust: `struct Symbol`.
#![tactic(auto)]

mod column;
mod identifier;
mod rows;
mod stored_type;
mod symbol;
mod table;

pub use column::{Column, Columns};
pub use identifier::Identifier;
pub use rows::{put_row, row};
pub use stored_type::{slot_words, stored_words};
pub use symbol::Symbol;
pub use table::Table;
