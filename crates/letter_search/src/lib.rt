//! Refutations of sizes over few letters: for the sizes from 1 up closed logs, each of which shows that no machine of its size does.
//!
//! Nothing is promised of what `refute_sizes` gives but that it is safe: each log is tested by who uses it, as `check` tests it. It stands on
//! size_refutations for base clauses, on clause_solver for workers, and on refutation_log for the log that they share.
#![tactic(auto)]

mod blocks;
mod decoding;
mod filling;
mod letters;
mod refuting;
mod sizes;
mod tracks;
mod working;

pub use refuting::{Effort, Ended, Refutations, Sizes, refute_sizes};
pub use sizes::SmallMachine;
