//! Linear systems over any field: a basis of the solutions.
#![tactic(auto)]

mod constants;
mod echelon;
mod null;
mod rows;
mod solution;
mod vectors;

pub use constants::{constant, plus_constants, unit_row};
pub use echelon::Echelon;
pub use null::null_basis;
pub use solution::Solution;
