//! The value of an expression for a parameter and a variable, by the steps of its definition, without memory.
#![tactic(auto)]

mod left;
mod step;
mod terms;
mod value;

pub use value::value_at;
