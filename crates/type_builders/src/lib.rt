// A layer of each kind, two in a row, and the types of strings. In the Rust: `enum ValueType`, `for_string_literal`, `for_string_slice`.
#![tactic(auto)]

mod layer;
mod layer_pair;
mod strings;

pub use layer::Layer;
pub use layer_pair::two_layers;
pub use strings::{for_string_literal, for_string_slice};
