// What a table in columns has under a name.
#![tactic(auto)]

mod get;

pub use get::{Found, get_among, type_among};
