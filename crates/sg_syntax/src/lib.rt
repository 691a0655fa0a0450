//! Texts as trees with the places of their parts: the table of the grammar, read by a machine with one stack of symbols.
#![tactic(auto)]

mod draft;
mod fault;
mod machine;
mod node;
mod symbol;
mod ways;

pub use fault::SyntaxFault;
pub use machine::parse;
pub use node::{Head, Mark, Node, Numeral};
