//! One more sum on top of any tower.
#![tactic(auto)]

mod constants;
mod ending;
mod partial;
mod poly1;
mod polys;
mod powers;
mod sums;
mod terms;

pub use partial::Partial;
pub use poly1::Poly1;
pub use sums::SumExt;
