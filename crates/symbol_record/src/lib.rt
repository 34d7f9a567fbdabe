// What an act does to its record and to the words of the slot.
#![tactic(auto)]

mod record;

pub use record::{fill, overwrite};
