// Bytes as words, the lowest byte first.
#![tactic(auto)]

mod decode_words;

pub use decode_words::words_of;
