// Whether a type is well formed, in one cycle of calls. In the Rust: `is_wellformed`.
#![tactic(auto)]

mod well_formed;

pub use well_formed::{is_wellformed, wellformed};
