// What a settling adds to the rounds, in numbers. In the Rust: in `autoderef`.
#![tactic(auto)]

mod ending;

pub use ending::{Ending, body_of, ending_of};
