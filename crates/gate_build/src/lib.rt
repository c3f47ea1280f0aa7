//! The circuit of a machine: the functions of its table, built as and-gates by splitting on latches and inputs.
//! The contract above this layer: `circuit_of` gives exactly the circuit of the definition, whose runs are the
//! machine's, whose states are those that the machine meets, and whose kind is the machine's. It stands on
//! aiger_text, machine_model, text_limits, letters_and_lassos, names_and_numbers and indexmap.
#![tactic(auto)]

mod circuits;
mod gates;
pub mod laws;
mod tables;

pub use circuits::circuit_of;
