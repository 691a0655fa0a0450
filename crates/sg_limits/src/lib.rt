//! The limits on the expressions of a command, each counted exactly as it is defined, the parts of them that are 0, and where
//! their sums start.
#![tactic(auto)]

mod degrees;
mod divisors;
mod fault;
mod inspection;
mod lists;
mod seek;
mod sizes;
mod start;
mod walk;

pub use divisors::{Divisor, divisor_parts, zero_parts};
pub use fault::LimitFault;
pub use inspection::{Facts, inspect};
pub use start::start_of;
