//! Tests of texts and expressions, their limits, values and closed forms, from outside: tests in a crate check the whole crate once
//! more.
#![tactic(auto)]

#[cfg(test)]
mod closed_forms;
#[cfg(test)]
mod expressions;
#[cfg(test)]
mod limits;
#[cfg(test)]
mod printing;
#[cfg(test)]
mod reading;
#[cfg(test)]
mod syntax;
#[cfg(test)]
mod trees;
#[cfg(test)]
mod values;
