// The lowest and the highest value of a type. In the Rust: `min_i128`, `max_u128`.
#![tactic(auto)]

mod bound;
mod min_and_max;

pub use bound::Halves;
pub use min_and_max::{max_u128, min_i128};
