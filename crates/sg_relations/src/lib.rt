//! Relations of products: which products of powers of rational functions of k are r(k+1)/r(k), and so what a new product is over
//! others: free, expressed by them, or with a power that is.
#![tactic(auto)]

mod answer;
mod consts;
mod factors;
mod monic;
mod numbers;
mod primitive;
mod ratio;
mod related;

pub use answer::Relation;
pub use consts::Consts;
pub use related::relation;
