//! Laurent polynomials in several products over a field, as lists of terms.
#![tactic(auto)]

mod exponents;
mod laurent;
mod products;
mod terms;

pub use laurent::Laurent;
pub use terms::Term;
