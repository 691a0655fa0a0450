//! Plain polynomials, of degree at most four and with small coefficients, in whole arithmetic. Their five coefficients are
//! found from the values at 0, 1, 2, 3 and 4, and their sums over 60. No step is a step of fractions, so none is wide.
#![tactic(auto)]

mod closed;
mod differences;
mod domain;
mod forms;
mod products;
mod quartic;
mod reading;
mod reducing;
mod summing;
mod terms;

pub use closed::closed_form;
pub use differences::telescopes;
pub use domain::is_plain;
pub use forms::plain_form;
