//! The machines of circuits. The contract above this layer is its laws: each circuit has a number of states, and a machine of just
//! so many states that has its runs, and its kind. So what is known of all machines of some size is known of all circuits with so
//! many states. Circuits may have any number of inputs and latches; nothing is computed. It stands on gate_build and aiger_text.
#![tactic(auto)]

pub mod laws;
