//! A number over the variable plus a number, of which no expression without sums is a sum.
#![tactic(auto)]

mod reciprocals;

pub use reciprocals::is_reciprocal;
