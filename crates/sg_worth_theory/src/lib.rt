//! Lemmas on the values of trees at any depth and on the canonical form of elements. It has no code.
#![tactic(auto)]
