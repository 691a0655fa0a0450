//! Tests of numbers, lists, linear systems, polynomials, rational functions, roots and shifts, from outside: tests in a crate
//! check the whole crate once more.
#![tactic(auto)]

#[cfg(test)]
mod fields;
#[cfg(test)]
mod fractions;
#[cfg(test)]
mod linear_systems;
#[cfg(test)]
mod lists;
#[cfg(test)]
mod made;
#[cfg(test)]
mod polynomials;
#[cfg(test)]
mod rational_functions;
#[cfg(test)]
mod roots;
#[cfg(test)]
mod shifts;
#[cfg(test)]
mod whole_roots;
