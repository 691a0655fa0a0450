//! The outside: where bytes come from and where they go to. Each source and sink counts its faults.
#![tactic(auto)]

mod memory;
mod std_io;
mod steady;
mod traits;

pub use memory::{MemSink, MemSource};
pub use std_io::{StdSink, StdSource};
pub use steady::{SteadySink, SteadySource};
pub use traits::{Failed, Sink, Source};

#[cfg(test)]
mod tests;
