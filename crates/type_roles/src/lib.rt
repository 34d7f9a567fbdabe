// What a type can be used as. In the Rust: `can_be_sized` to `can_be_returned`.
#![tactic(auto)]

mod grid;
mod role;
mod roles;

pub use role::Role;
pub use roles::can_be;
