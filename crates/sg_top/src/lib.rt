//! The top call: from the words of a command to the bytes of its answer.
#![tactic(auto)]

mod answer;
mod batch;
mod forms;
mod lines;
mod poles;
mod reply;
mod samples;
mod send;
mod status;
mod sums;
mod taken;
mod top;
mod tower;
mod values;

pub use status::Status;
pub use top::sigma;
