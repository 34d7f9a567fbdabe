// How a plan is settled where its rounds ended, by the first line that applies. In the Rust: in `autoderef`.
#![tactic(auto)]

mod settling;

pub use settling::{Settling, settle};
