//! The theory of first-order equations over rational functions. It has no code.
#![tactic(auto)]
