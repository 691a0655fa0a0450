//! The language of texts: which texts read as which expressions, the reader and the printer.
#![tactic(auto)]

mod bounds;
mod check;
mod convert;
mod fault;
mod found;
mod printing;
mod rational;
mod reader;
mod scope;

pub use bounds::Bounds;
pub use fault::ReadFault;
pub use printing::print;
pub use rational::print_rat;
pub use reader::read;
