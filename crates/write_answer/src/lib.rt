// Answers as two numbers, a refusal and a value, for C.
#![tactic(auto)]

mod answer;

pub use answer::{Answer, accepted, refused};
