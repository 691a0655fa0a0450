//! The theory of relations of products: which products of powers of rational functions are r(k + 1)/r(k). It has no code.
//!
//! Entry points, in `specs/`: `Relations` (the three answers, the law of exponents). In `proofs/`: `RatioTheorem` (of coprime U and V only
//! U = V makes U/V of that form), `WrittenRows` and `SignLaw` (a product of powers is of that form exactly where the rows of its factors
//! add up to 0), `ExponentLaws` (the law of exponents for fractions and for rational functions of n), `NullVectors` and `Answering` (from the
//! null space of the rows to each answer), `Exclusive` (no two answers hold at once), `Factors` (freeness as the towers ask for it).
#![tactic(auto)]
