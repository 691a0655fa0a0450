//! Expressions as trees of a program. `tree_of` (specs/Tree.antt) says which tree of the definitions an `Expr` stands for.
#![tactic(auto)]

mod generators;
mod parameter;
mod tree;

pub use tree::Expr;
