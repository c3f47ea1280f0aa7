//! Flat formulas of linear temporal logic: a list of different nodes in which parts stand before
//! wholes, and the trees that the list stands for. Truth on a lasso (`holds`) speaks of the trees alone.
//! The contract above this layer: one id per node, and no `add` changes the tree of an id that stood.
//! It stands on letters_and_lassos for lassos, names_and_numbers for names and indexmap for the list of different nodes.
#![tactic(auto)]

mod faults;
mod formulas;
pub mod laws;
mod nodes;
mod texts;

pub use faults::AddFault;
pub use formulas::Formulas;
pub use nodes::{FormulaId, MAX_NODES, MAX_SIGNALS, Node};
pub use texts::write_formula;
