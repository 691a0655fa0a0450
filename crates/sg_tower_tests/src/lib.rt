//! Tests of the crates of towers, from outside: tests in a crate check the whole crate once more.
#![tactic(auto)]

#[cfg(test)]
mod bottoms;
#[cfg(test)]
mod elements;
#[cfg(test)]
mod laurent;
#[cfg(test)]
mod made;
#[cfg(test)]
mod products;
#[cfg(test)]
mod telescoping;
