//! The canonical form of elements as trees, and of rational functions above all.
#![tactic(auto)]

mod common;
mod element;
mod factors;
mod monomials;
mod products;
mod quotient;
mod rational;
mod signs;
mod whole;

pub use common::{Common, over_common};
pub use element::{Part, element_tree};
pub use quotient::{Quotient, primitive_quotient};
pub use rational::rational_tree;
pub use whole::{opposite, opposites};
