// What a sheet's words hold: how many types, and where the words of each stand.
#![tactic(auto)]

mod bodies;

pub use bodies::{type_at, types_in};
