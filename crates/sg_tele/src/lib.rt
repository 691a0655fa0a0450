//! Telescoping in any tower.
#![tactic(auto)]

mod antidifference;

pub use antidifference::telescope;
