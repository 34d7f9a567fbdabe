// Where the walker arrives: the type that is reached, or its address, as it is written and told.
#![tactic(auto)]

mod arrival;

pub use arrival::arrive;
