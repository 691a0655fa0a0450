//! What is told of the products and sums of a command, each over those before it, and of the simplest form over them. It has no code.
//!
//! Entry points, in `specs/`: `Standings` (free, expressed, dependent; the simplest form), `Forms` (canonical forms over products and
//! sums). In `proofs/`: `FreeOver` (the sums of a tower over products are new in values), `OneList` (expressions that agree have one
//! list of terms).
#![tactic(auto)]
