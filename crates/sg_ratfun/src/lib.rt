//! Rational functions over any field, in lowest terms: a field with one variable more.
#![tactic(auto)]

mod field;
mod guess;
mod parts;
mod probe;
mod ratfun;
mod split;

pub use ratfun::RatFun;
