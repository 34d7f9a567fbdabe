// A lent run of records gathered into columns; the search by id.
#![tactic(auto)]

mod gather_rows;
mod search_lent;

pub use gather_rows::gather;
pub use search_lent::find_symbol;
