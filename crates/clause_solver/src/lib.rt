//! The solver: workers that look for an assignment which meets base clauses, each by turns that end with one or with a learnt clause.
//!
//! The contract above this layer: a turn answers a model of the base clauses, or an entry by its worker that follows from them and the
//! entries seen, and whose clause teaches over both. What is decided in which order, and when a worker begins anew, carries no contract.
//! Stands on unit_propagate and conflict_learn.
#![tactic(auto)]

mod decisions;
pub mod laws;
mod learning;
mod levels;
mod models;
mod order;
mod restarts;
mod search;
mod worker;

pub use worker::{Turned, Worker};
