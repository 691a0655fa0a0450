//! First-order equations over rational functions with a constant coefficient, solved by reduction.
#![tactic(auto)]

mod conditions;
mod euclid;
mod joining;
mod moving;
mod parting;
mod peeling;
mod planning;
mod polynomials;
mod reducing;
mod settling;
mod shares;
mod solving;
mod splitting;
mod summing;

pub use solving::solve_constant;
