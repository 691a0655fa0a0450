//! The theory of building a tower sum by sum, and of what the finished tower says of the sum of an expression. It has no code.
//!
//! Entry points, in `proofs/`: `Standing` (how far a tower has come), `Stepping` (the next sum is new, or expressed), `Items` (the same
//! for the elements that a program holds), `Summing` (where nothing telescopes the summand there is no closed form; what telescopes it
//! is one). `docs/methods/depth.md` has the argument.
#![tactic(auto)]
