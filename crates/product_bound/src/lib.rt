//! Annotations of the product of a machine and a co-Büchi automaton, and why the bound on their numbers is enough.
//!
//! The contract above this layer: a side accepts a machine exactly where it has a valid annotation, whose numbers are
//! at most the number of the machine's states times that of rejecting states, of all or of those in a state's component.
//! `laws` has this, the run lasso that a cycle through a rejecting state gives, that a machine which isn't accepted has such
//! a run, and that each machine has a numbered one with the same runs.
//! It stands on machine_model.
#![tactic(auto)]

mod annotations;
pub mod laws;

pub use annotations::{Annotation, bound_at, bound_of, is_valid, leaves, rejecting_at};
