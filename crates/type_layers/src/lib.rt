// What a type is: its words as layers, the kinds by their sort, outer kind and inner type; and the answers that every crate gives.
#![tactic(auto)]

mod answers;
mod outer_and_inner;
mod sorts;

pub use answers::Refused;
pub use outer_and_inner::{inner, outer};
pub use sorts::{holds_inner, is_array, is_reference, is_slice};
