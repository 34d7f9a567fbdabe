// The text that `pairs` prints, for any bytes.
#![tactic(auto)]

mod line;
mod pairs_table;

pub use pairs_table::pairs_text;
