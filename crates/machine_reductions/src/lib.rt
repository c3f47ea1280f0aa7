//! Machines with fewer states, by tests of their product with the automaton of what a side has to keep away. `with_fewer_states` leads states
//! to others and moves elsewhere, and keeps what the numbers of the pairs allow. Proved is that it is safe and returns; what it gives is
//! tested by who uses it. It stands on annotation_maker for states and their edges, and on circuit_steps for the circuit's steps.
#![tactic(auto)]

mod ends;
mod letter_sets;
mod machines;
mod merging;
mod meters;
mod numbers;
mod reading;
mod reducing;
mod sparing;
mod supports;

pub use reducing::{Reduction, with_fewer_states};
