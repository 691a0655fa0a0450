//! The tower over the sums of a command: sum by sum, each that is new becomes a level, and each that is not is expressed by those
//! before it.
#![tactic(auto)]

mod depth;
mod fate;
mod growing;
mod jobs;
mod levels;
mod next;
mod rests;
mod towers;

pub use depth::with_tower;
pub use fate::Fate;
pub use jobs::Job;
pub use levels::{free_sums, plus_constant, start_of_element, start_values};
pub use towers::Built;
