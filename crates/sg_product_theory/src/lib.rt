//! The tower of a command with products: over those that are free, and then over the sums. It has no code.
//!
//! Entry points, in `specs/`: `PowerProducts` (the left side of a relation, as it is written). In `proofs/`: `Sound` (what is asked of
//! the products and sums of a command) and `Listed` (expressions in form have such), `Products` (the element of a free product, and of an
//! expressed one), `Standing` (how far the tower has come; it begins over the free products), `Stepping` (the next sum is new, or
//! expressed), `Items` (the same for the elements that a program holds), `None` and `Summing` (where nothing telescopes the summand no
//! expression over all products and sums does; what telescopes it is a closed form), `Written` (the two sides of a relation of products
//! agree from the start on), `Widening` (a canonical form over the free products is one over all).
//! `docs/methods/products_in_values.md` has the argument.
#![tactic(auto)]
