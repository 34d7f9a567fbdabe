// Extern fixing, of a type that is extern or not. In the Rust: `fix_type_for_flags`, `externalize_type`.
#![tactic(auto)]

mod externalize;
mod flags;

pub use flags::fix_type_for_flags;
