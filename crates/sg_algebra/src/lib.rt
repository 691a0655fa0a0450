//! The algebra that the proofs of every solver stand on. It has definitions and lemmas, and no code.
//!
//! Definitions that clauses cite are in `specs/`: rings, polynomials as lists of coefficients, fractions, data of any depth. The values of data, with
//! `≡`, are in `proofs/Value`, polynomials over values in `proofs/Polynomial`; the lemmas are beside them, a theme a file. Identities are proved by
//! `ring`, `by` and `field`. `docs/algebra.md` says how, and lists the theorems.
#![tactic(auto)]
