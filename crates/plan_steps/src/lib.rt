// A step's four words, the check of asked steps, a step written into a run. In the Rust: `ReferenceStep`.
#![tactic(auto)]

mod good_steps;
mod step;
mod writing;

pub use good_steps::check_steps;
pub use step::Step;
pub use writing::write_step;
