//! What machines and circuits owe to what a text wants: that a machine or a circuit satisfies it, or defeats every machine.
//! The contract above this layer is its laws: what a side's automaton accepts satisfies, or defeats every machine of any size, and
//! so does a circuit with the runs of such a machine. What is wanted is a value, so that texts and parts of texts share one meaning.
//! It stands on side_automata and gate_build.
#![tactic(auto)]

pub mod laws;
