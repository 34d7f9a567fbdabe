// The search in the columns: the first free record, the one that has an id.
#![tactic(auto)]

mod search;

pub use search::{first_free, slot_of, slot_with};
