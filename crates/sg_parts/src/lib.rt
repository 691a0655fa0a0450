//! Parts of divisors and of bodies of products as polynomials: their weights, coefficients and whole roots.
#![tactic(auto)]

mod line;
mod normal;
mod numerators;
mod planes;
mod ratios;
mod roots;
mod rows;
mod weights;
mod zeros;

pub use line::Line;
pub use normal::normal_rows;
pub use numerators::numerator_of;
pub use zeros::{Zero, zero_of};
