//! The words of a command: which command they are, with its numbers, and which of them are its texts.
#![tactic(auto)]

mod asked;
mod number;
mod words;

pub use asked::Command;
pub use words::{command_of, gen_of, is_batch};

#[cfg(test)]
mod tests;
