//! A circuit's file with an annotation over named states, tested against what it owes to a text.
//!
//! The contract above this layer: `first_bad_line` gives the first line at which a file fails, by an exact definition, or none; and then
//! its annotation is valid, and the formula that the circuit keeps from being true is true on none of its run lassos. `names_states` says
//! whether a file has an annotation of this form. It stands on aiger_text for circuits, on circuit_names for the test of names, and on
//! named_annotation for that of annotations; what a text is it doesn't know.
#![tactic(auto)]

mod duty;
mod files;
mod forms;
pub mod laws;

pub use duty::Duty;
pub use files::first_bad_line;
pub use forms::names_states;
