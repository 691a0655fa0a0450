//! Between expressions and elements of towers: the element of an expression, an element as its canonical expression, and their
//! values.
#![tactic(auto)]

mod element_values;
mod expressing;
mod functions;
mod letters;
mod numbers;
mod parts;
mod placing;
mod values;

pub use element_values::elem_at;
pub use expressing::express;
pub use letters::Letters;
pub use placing::place;
pub use values::value_in;
