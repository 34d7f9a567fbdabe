// Words written over the front of a lent run, whose rest is kept.
#![tactic(auto)]

mod front;

pub use front::write_words;
