// A type that was made, written to what was lent, or the refusals 15 and 14.
#![tactic(auto)]

mod made;

pub use made::write_type;
