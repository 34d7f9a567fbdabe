// The stored size of a type, with pointers of four bytes or of eight, or the refusals 5 and 17.
#![tactic(auto)]

mod stored_sizes;

pub use stored_sizes::stored_size;
