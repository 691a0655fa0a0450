//! Fractions in lowest terms of 128-bit numbers, whose every step is exact or refused, lists, fields, and whole roots.
#![tactic(auto)]

mod clear;
mod coefficients;
mod field;
mod guess;
mod lengths;
mod rat;
mod rational;
mod roots;
mod row;
mod scan;
mod step;
mod unit;
mod whole;

pub use clear::{cleared, common_denominator};
pub use coefficients::{copies_of, horner, push_copies};
pub use field::{Field, Probe};
pub use lengths::length_of;
pub use rat::{Rat, gcd_of};
pub use roots::whole_roots;
pub use row::Row;
pub use step::{Op, Stop, Wide};
pub use unit::{common_unit, in_unit};
pub use whole::{whole_difference, whole_product, whole_quotient, whole_sum};
