// What the outer kind alone tells of a type. In the Rust: `is_void`, `is_integral`, `is_signed`, `is_bitfield`, `is_slice_pointer`.
#![tactic(auto)]

mod properties;

pub use properties::{Property, has};
