//! Tests of the whole program, from outside: tests in a crate check the whole crate once more.
#![tactic(auto)]

#[cfg(test)]
mod answers;
