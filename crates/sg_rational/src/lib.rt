//! First-order equations over rational functions.
#![tactic(auto)]

mod ansatz;
mod degree;
mod denominator;
mod dispersion;
mod first;
mod system;

pub use first::solve_first;
pub use sg_matrix::Solution;
