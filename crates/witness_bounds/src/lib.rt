//! The bounds of a witness's literals: `Bounds::of` says how large they may be by the numbers of latches and gates that it is said to
//! have, and `first_outside` gives the first line that has one out of its bound, also where lines are missing. By a law a whole witness
//! without such a line is one for its claim. It stands on truth_witness, and on witness_clauses for the formulas that occur.
#![tactic(auto)]

mod bounds;
pub mod laws;
mod lines;

pub use bounds::{Bounds, Counts};
pub use lines::{StatedLiterals, WitnessPlace, first_outside};
