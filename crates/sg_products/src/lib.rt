//! What a tower with products asks of Laurent polynomials over the rational functions of k: the shift, their terms,
//! and all solutions of the telescoping equation.
#![tactic(auto)]

mod flat;
mod partial;
mod powers;
mod rows;
mod shift;
mod solve;
mod supports;

pub use flat::descending_terms;
pub use shift::shifted;
pub use solve::solved;
