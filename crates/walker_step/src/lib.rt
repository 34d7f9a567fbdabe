// One step of the walker, as functions on numbers and words.
#![tactic(auto)]

mod step_move;

pub use step_move::{Move, go, is_desliced, kind_of, move_of};
