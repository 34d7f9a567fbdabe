// Like, declared as, concretization. In the Rust: `is_like`, `can_be_declared_as`, `can_be_concretization_of`.
#![tactic(auto)]

mod concretization;
mod declared;
mod like;

pub use concretization::can_be_concretization_of;
pub use declared::can_be_declared_as;
pub use like::is_like;
