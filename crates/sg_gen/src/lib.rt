//! Summands that are drawn from a seed, for large runs.
#![tactic(auto)]

mod draws;
mod samples;

pub use samples::sample;

#[cfg(test)]
mod tests;
