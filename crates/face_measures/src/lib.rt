// Starts, depths, sizes and bounds as two numbers, for C, some written where C lent a place.
#![tactic(auto)]

mod measures;

pub use measures::{bound, count, size, start};
