// Bytes and numbers put into a lent text.
#![tactic(auto)]

mod text;

pub use text::Text;
