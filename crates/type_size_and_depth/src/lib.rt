// The known size of a type, and its pointer depth. In the Rust: `known_size_in_bytes_as_word_member`, `pointer_depth`.
#![tactic(auto)]

mod known_sizes;
mod pointer_depths;

pub use known_sizes::{known_size, known_size_in_bytes_as_word_member};
pub use pointer_depths::{depth, pointer_depth};
