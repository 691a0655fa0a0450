//! What the expressions of a command are over its sums: each in its one canonical form, whether one telescopes another, and which of
//! the sums are new over those before them.
#![tactic(auto)]

mod checks;
mod frees;
mod placing;
mod simplest;
mod telling;

pub use checks::checked;
pub use frees::Standing;
pub use simplest::simplified;
pub use telling::standings;
