// The plan for any words, tables and numbers, and the theorem of the third demand. In the Rust: `autoderef`.
#![tactic(auto)]

mod autoderef_lent;
mod plan_checks;

pub use autoderef_lent::autoderef;
pub use plan_checks::plan_among;
pub use plan_report::Report;
pub use plan_rounds::Question;
