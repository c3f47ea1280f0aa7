//! The checker of refutation logs: it says yes exactly to legal, and to closed, logs.
//!
//! `check_log` and `check_open` test the entries in their order, the split calls in pieces on several threads, with the same answers.
//! A refusal names the first entry that breaks a rule, and the first rule that it breaks. A yes of `check_log` means that no
//! assignment meets the base clauses. Stands on refutation_log, which says what is legal.
#![tactic(auto)]

mod check;
mod faults;
mod hints;
pub mod laws;
mod marks;
mod places;
mod split;

pub use check::{check_log, check_log_split, check_open, check_open_split};
pub use faults::LogFault;
