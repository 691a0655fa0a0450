//! Closed forms of sums over nested sums, or that there is none.
#![tactic(auto)]

mod nested;
mod total;

pub use nested::nested_closed;
