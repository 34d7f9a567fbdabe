// The plain walker of the third demand, as a definition; and the member that a step asks for.
#![tactic(auto)]

mod asked;

pub use asked::asked_member;
