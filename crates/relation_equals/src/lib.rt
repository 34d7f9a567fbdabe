// When two types are the same: identical, or equal but for Char8 and Uint8. In the Rust: `==`, `equals`.
#![tactic(auto)]

mod identical_and_equals;

pub use identical_and_equals::{equals, identical};
