//! What a command of the program replies: whole lines, and the status to end with.
//!
//! The lines of refusals are exactly those of `specs/`, with the fault's number, word and place. Stands on spec_faults for the
//! faults of texts, and on names_and_numbers for numbers.
#![tactic(auto)]

mod replies;

pub use replies::{Reply, Status, line_count, refusal, refused, refused_at_line, whole};
