//! Polynomials in one variable over any field, with exact arithmetic, division and greatest common divisors.
#![tactic(auto)]

mod common;
mod division;
mod kernel;
mod plane;
mod poly;
mod simple;

pub use plane::Poly2;
pub use poly::Poly;
