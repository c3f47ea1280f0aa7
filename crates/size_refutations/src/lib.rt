//! The logs of documents of version 6 against the form of their side: whether each refutes its size.
//!
//! The contract above this layer: `Ground::log_line` gives the line at which a log fails, exactly as it is defined, and
//! `laws::holding_logs_refute` says that where none does no machine of the log's size satisfies, or each of the environment can lose. It
//! stands on cobuchi_build, letter_clauses and log_checker.
#![tactic(auto)]

mod grounds;
mod heads;
pub mod laws;
mod logs;
mod sizes;

pub use grounds::{Ground, Sought};
