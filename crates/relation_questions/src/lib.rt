// Each relation, asked of any words.
#![tactic(auto)]

mod ask_coercion;
mod ask_relation;

pub use ask_coercion::coerces;
pub use ask_relation::{Relation, holds, relates};
