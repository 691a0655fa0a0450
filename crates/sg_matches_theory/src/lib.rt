//! Which products of a list are free over those before them, which are expressed by them, and which are neither: formally exactly where
//! in values, over the fractions and with a parameter. It has no code.
//!
//! Entry points, in `specs/`: `Lists` (the first dependent product of a list), `Commands` (what the line `dependent` says). In `proofs/`:
//! `Exactly` (free, expressed and dependent, each exactly), `Walking` (what a loop over a list keeps), `FreeInValues` (a free product
//! agrees in no power with an expression over those before it). Whole instances, with every premise: `ProductExamples`,
//! `NoneForFactorial`, `NoRecurrenceForBinomial`. `docs/methods/products_in_values.md` has the argument.
#![tactic(auto)]
