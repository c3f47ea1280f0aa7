//! Annotations over named states: a state of the automaton is a set of obligations and a counter, and only those that a circuit meets
//! are named. `read_named_annotation` gives exactly what a text names and lists, or its first line that is refused;
//! `check_named_annotation` says whether it is valid for a circuit of either side, or why not. On no run lasso of a circuit with a valid
//! one is the formula true. It stands on annot_check for the test of pairs, and on cobuchi_build and obligation_sets for states and
//! their edges, of which it makes those of the named states alone.
#![tactic(auto)]

mod checking;
mod edges;
mod formula;
pub mod laws;
mod reading;
mod states;
mod words;

pub use checking::check_named_annotation;
pub use reading::{NamedAnnotation, read_named_annotation};
