// Element, pointee, viewee, fully dereferenced, as parts of the caller's own words. In the Rust: `get_element_type`, `get_pointee_type`, `get_viewee_type`, `fully_dereferenced`.
#![tactic(auto)]

mod parts;

pub use parts::{fully_dereferenced, get_element_type, get_pointee_type, get_viewee_type};
