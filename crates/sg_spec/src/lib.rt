//! What a reader has to believe: the definitions that the contracts of all crates cite (specs/), and their first consequences: what
//! holds of the values of expressions, of plain sums and of fractions (proofs/). It has no code.
#![tactic(auto)]
