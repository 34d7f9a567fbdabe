// A sheet read, words or bytes: how many types, or the first refusal.
#![tactic(auto)]

mod reading;

pub use reading::{read_sheet, read_words};
