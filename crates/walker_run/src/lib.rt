// The walker as a function: steps in a row, then the address.
#![tactic(auto)]

mod steps_taken;
mod walk_lent;

pub use steps_taken::walk_among;
pub use walk_lent::walk;
