//! The theory of rational solutions of linear recurrences of any order: what their denominators divide. It has no code.
//!
//! Entry points, in `proofs/`: `Denominators` (the denominator divides images of the first coefficient, and late images of it divide
//! images of the last one), from `Unrolling` (the equation, unrolled up and down) and `Orders` (a denominator is coprime to its images
//! after many steps). `docs/methods/recurrences.md` has the argument.
#![tactic(auto)]
