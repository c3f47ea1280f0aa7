//! Codes for the states of a machine, as they are reached and by predicates of states that its outputs and moves ask for, and the smallest
//! net that is found by some of them. What a code costs is guessed by the net of its bits alone. Proved is that it is safe and returns. It
//! stands on gate_search.
#![tactic(auto)]

mod choosing;
mod columns;
mod costs;
mod drawing;
mod predicates;
mod state_sets;
mod tables;

pub use choosing::small_net;
pub use columns::problem_of;
pub use drawing::{code_bits, likely_codes};
pub use tables::Table;
