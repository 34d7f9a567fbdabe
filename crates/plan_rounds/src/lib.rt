// The rounds along the asked steps, one after the other, and their settling. In the Rust: in `autoderef`.
#![tactic(auto)]

mod finish;
mod question;
mod round;
mod rounds;
mod steps;

pub use question::Question;
pub use rounds::plan_in_rounds;
