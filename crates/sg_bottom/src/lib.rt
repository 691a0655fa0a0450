//! The tower of products without sums: Laurent polynomials in the products over the rational functions of k.
#![tactic(auto)]

mod bottom;
mod functions;

pub use bottom::Bottom;
