//! The shared log: one refutation log that several threads read and add to, in turns.
//!
//! An `Exchange` holds the log, and each `Pass` of it knows what it has seen of the log and which entries it added. Whatever the
//! schedule, every call is one turn on one legal log, of which all that any pass has seen is a prefix; `close` gives that log back.
//! No clause says that a turn comes. Stands on refutation_log, and on atomic_table for the steps that threads share.
#![tactic(auto)]

mod exchange;
mod turns;
mod views;

pub use exchange::{Exchange, Opened, Pass, Refused};
pub use views::Terms;
