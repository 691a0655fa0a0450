//! Towers of products and sums over the rational functions of k: the trait, and its elements as lists of terms.
#![tactic(auto)]

mod flat;
mod tower;

pub use flat::FlatTerm;
pub use tower::Tower;
