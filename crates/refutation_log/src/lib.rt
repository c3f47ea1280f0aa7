//! Refutation logs: lists of clauses, each with hints that show how it follows from the clauses before it.
//!
//! `specs/` says when a clause follows, when a log is legal, closed and full, and what a turn on a log does. `LogState` is a log
//! on which each call is one such turn, which takes no memory where room was made before; `laws` says that a log stays legal over
//! every list of sound turns, and that no assignment meets the clauses that a closed log refutes. Stands on propositional_logic and names_and_numbers.
#![tactic(auto)]

mod entries;
pub mod laws;
mod read;
mod state;
mod turns;
mod write;

pub use entries::{Entry, EntryRef, Hints, SharedClause};
pub use read::{LogText, LogTextFault, read_log};
pub use state::LogState;
pub use turns::{Reply, Turn};
pub use write::{write_entries, write_log};
