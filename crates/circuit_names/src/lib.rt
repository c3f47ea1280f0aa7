//! The names of a circuit's inputs and outputs against those of a text: the first line at which a circuit without fault, or one that has
//! a fault, counts or names them otherwise. The contract above this layer: `stated_line` and `faulty_line` give exactly the line of their
//! definitions, and `laws::names_are_told` says of what a circuit is where there is none. It stands on aiger_text for circuits and their lines.
#![tactic(auto)]

pub mod laws;
mod lines;
mod names;

pub use lines::{earliest, faulty_line, stated_line};
pub use names::TextNames;
