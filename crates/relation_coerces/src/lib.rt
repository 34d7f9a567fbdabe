// Coerces, autoderefs, sub-autoderefs. In the Rust: `can_coerce_into` to `can_subautoderef_into`.
#![tactic(auto)]

mod autoderefs;
mod coercion;

pub use autoderefs::{can_autoderef_into, can_subautoderef_into};
pub use coercion::{Coercion, coerces};
