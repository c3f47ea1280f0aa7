//! How long the work at a text may take, by a stopwatch that is handed in from outside.
//!
//! Games, searches and refutations ask a `Deadline` at their turns whether to end, and give what they have by then. Nothing is promised of
//! what it says, so no contract of an answer rests on it.
#![tactic(auto)]

mod deadlines;
mod shared_time;
mod stopwatches;

pub use deadlines::{Deadline, NoDeadline, TextDeadline};
pub use shared_time::SharedTime;
pub use stopwatches::{NoStopwatch, Stopwatch};
