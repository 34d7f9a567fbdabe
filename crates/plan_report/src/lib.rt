// A plan as it is told and written, or the refusals 15 and 14. In the Rust: in `autoderef`.
#![tactic(auto)]

mod delivery;
mod report;

pub use delivery::{Draft, deliver};
pub use report::{Report, refuse};
