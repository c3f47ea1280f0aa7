//! Binary decision diagrams: Boolean functions of many variables as shared nodes, in one order of the variables, with complemented edges.
//! `Diagrams` holds the nodes of a package and makes functions from functions. Limits of nodes, bytes and steps are values, and a fault tells
//! which was passed. Proved is that it is safe and returns; what functions mean is tested against truth tables. It stands on std alone.
#![tactic(auto)]

mod connectives;
mod diagrams;
mod faults;
mod functions;
mod node_table;
mod operation_cache;
mod quantifiers;
mod restricting;
mod substitutions;
#[cfg(test)]
mod tests;
mod walks;

pub use diagrams::Diagrams;
pub use faults::{DiagramFault, DiagramLimits};
pub use functions::{Function, Split, Variable};
pub use substitutions::Substitution;
