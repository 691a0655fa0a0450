//! The shifts at which two polynomials meet.
#![tactic(auto)]

mod certificate;
mod elimination;
mod horner;
mod meetings;
mod power_sums;
mod radical;
mod shifts;
mod split;
mod step;

pub use shifts::spread;
