//! The theory of towers of products and sums. It has no code.
//!
//! Entry points, in `proofs/`: `Formal` (formal towers, independence, only constants are fixed, the laws), `Degrees` (the degree bound), `Slices`
//! with `Starting`, `PowerSlices` and `ProductSlices` (all solutions of telescoping equations, slice by slice), `Monomials` and `Flat` (elements
//! as lists of terms). `Difference` has the words for equations and their solutions. `docs/methods/tower.md` says how they hang together.
#![tactic(auto)]
