//! One size of one side, searched in turns on its shared log.
//!
//! The contract above this layer: a turn on a `SizeTask` finds a machine that the side accepts, or sees the log closed, where the side
//! accepts no machine of this size, or full, or has seen the log grow; and `close` gives the log, legal and taught over the base clauses
//! of the problem. Stands on annotation_encode and machine_decode, clause_solver, and clause_exchange.
#![tactic(auto)]

mod decided;
mod seats;
mod size_log;
mod tasks;

pub use decided::Decided;
pub use seats::Seat;
pub use size_log::SizeLog;
pub use tasks::{Opened, SizeTask};
