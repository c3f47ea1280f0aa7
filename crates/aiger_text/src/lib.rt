//! Circuits of latches and and-gates: their definition, their steps, and their text in the ASCII format of AIGER 1.9,
//! both ways. The contract above this layer: `read_circuit` gives what a file states or its first fault, `write_circuit`
//! writes exactly the circuit's lines, `Circuit::step` is one step of the circuit, and every lasso of input letters has
//! a run lasso. It stands on text_limits, letters_and_lassos, machine_model and names_and_numbers.
#![tactic(auto)]

mod bodies;
mod circuits;
mod counts;
mod faults;
mod forms;
mod groups;
mod header;
mod laws;
mod reading;
mod states;
mod symbols;
mod uses;
mod walks;
mod words;
mod write;

pub use circuits::{Circuit, Gate, Latch};
pub use faults::CircuitFault;
pub use laws::{
    comments_are_read, either_side_has_the_states, faults_state_nothing, files_have_one_fault,
    files_state_one_thing, readings_agree, readings_are_stated, runs_are_determined,
    runs_on_every_input, valuations_agree, written_is_read,
};
pub use reading::{CircuitFile, read_circuit};
pub use states::CircuitState;
pub use symbols::Named;
pub use words::{cut_at, is_numeral, number_within};
pub use write::write_circuit;
