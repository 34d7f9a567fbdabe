// The word at which an element, a pointee, a viewee or a type fully dereferenced starts, for any words.
#![tactic(auto)]

mod part_starts;

pub use part_starts::{Part, start_of};
