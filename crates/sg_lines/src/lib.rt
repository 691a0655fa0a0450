//! Lines and words of bytes, and a source that is read whole as long as its lines fit a batch.
#![tactic(auto)]

mod pieces;
mod whole;

pub use pieces::{first_line, words_of};
pub use whole::{Unread, read_whole};

#[cfg(test)]
mod tests;
