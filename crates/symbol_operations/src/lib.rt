// What is done to a table under a name: put of nothing, poison or a type, forward declaration of poison or a type.
#![tactic(auto)]

mod operation;

pub use operation::{Act, Declared, Offer, Operation};
