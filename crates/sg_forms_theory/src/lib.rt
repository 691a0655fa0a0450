//! What the elements of the tower over the sums of a command say of its expressions: which sums are new, whether an expression
//! telescopes another, and that equal values have one canonical form. It has no code.
//!
//! Entry points, in `proofs/`: `Listed` (an equation holds from the start on, or fails beyond every point; a sum at one of the places
//! agrees with no expression over those before it), `Marking` (the new ones of all sums), `Simplest` (the canonical form of an
//! expression), `OneForm` (expressions that agree have one).
#![tactic(auto)]
