// The numbers of the rules, by name: kinds, steps, marks, contexts, coercions, states, effects, refusals, limits. In the Rust: `enum ValueType`, `enum FixContext`.
#![tactic(auto)]

mod context;
mod effect;
mod kind;
mod limit;
mod mark;
mod refusal;
mod state;
mod step_kind;

pub use context::Context;
pub use effect::Effect;
pub use kind::Kind;
pub use limit::Limit;
pub use mark::Mark;
pub use refusal::Refusal;
pub use state::State;
pub use step_kind::StepKind;
