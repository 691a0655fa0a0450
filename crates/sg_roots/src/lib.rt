//! The whole roots of polynomials over the fractions, however far from 0.
#![tactic(auto)]

mod differences;
mod far;
mod pieces;
mod signs;

pub use far::far_roots;
