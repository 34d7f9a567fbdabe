// What the checks 1 to 3 refuse first, and where.
#![tactic(auto)]

mod bad_word;
mod first_refusal;

pub use first_refusal::{check_type, check_types};
