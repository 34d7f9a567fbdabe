// Fixing of a type that is not extern. In the Rust: in `fix_type_for_flags`.
#![tactic(auto)]

mod not_extern;

pub use not_extern::fix_plain;
