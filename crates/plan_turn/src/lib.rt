// What one round decides, on numbers. In the Rust: in `autoderef`.
#![tactic(auto)]

mod decide_turn;
mod turn;

pub use decide_turn::turn_of;
pub use turn::Turn;
