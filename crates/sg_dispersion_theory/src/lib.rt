//! The theory of the solvers of sums: where two polynomials have common divisors when one is shifted. It has no code.
#![tactic(auto)]
