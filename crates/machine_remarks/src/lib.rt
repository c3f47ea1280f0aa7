//! What is said of a controller beside its document: whether it owes anything, which outputs never change, which inputs it never looks at;
//! and of a text, whether its assumptions or its guarantees are true on no word.
//!
//! `remarks_of` walks through the states that a circuit reaches, and through the pairs of these with states of the assumptions' automaton. Proved is that
//! it is safe and returns. It stands on circuit_steps for the circuit's steps and on annotation_maker for the automaton's states and edges.
#![tactic(auto)]

mod assumptions;
mod formulas;
mod leaves;
mod meters;
mod remarks;
mod rings;
mod runs;
mod sections;
mod silence;
mod tables;
#[cfg(test)]
mod tests;

pub use remarks::remarks_of;
pub use sections::{EmptySections, empty_sections, is_never_true};
