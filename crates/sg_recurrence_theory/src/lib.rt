//! Recurrences of sums with a parameter: what is printed of one, and where it holds. It has no code.
//!
//! Entry points, in `specs/`: `Recurrences` (what a recurrence says), `Listing` (its divisors), `Ranges` (where none of them is 0),
//! `RecurrenceLines` (its lines), `Answers` (all that is told). In `proofs/`: `OverTower` (from a formal pair to the recurrence),
//! `Recurring` (where no divisor is 0 all values exist), `Signs` and `Divisors` (the ranges are sound), `Somewhere` (a divisor isn't 0 at
//! every parameter), `Shifting` (the shifted summands are in form). `docs/methods/recurrences.md` has the argument.
#![tactic(auto)]
