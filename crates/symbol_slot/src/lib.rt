// Which record an act on a table is about: the one that has the id, the first free one, or none, by the refusals 12 and 13.
#![tactic(auto)]

mod slot;

pub use slot::{Way, way_of};
