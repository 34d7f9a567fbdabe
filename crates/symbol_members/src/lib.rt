// What a table in columns has of a member: the type that is stored under its id.
#![tactic(auto)]

mod members;

pub use members::member;
