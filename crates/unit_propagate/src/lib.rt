//! Unit propagation: a trail of literals, and the literals that clauses force on it.
//!
//! A trail is seen as its literals in the order in which they became true, each with its level and the clause that is its reason.
//! `propagate` ends with a trail at which no clause is falsified or unit, or with the number of a falsified clause; it keeps two
//! watched literals for each clause. `specs/` says what a sound trail and a quiet one are. Stands on refutation_log, for the numbers
//! of clauses.
#![tactic(auto)]

mod arena;
mod clauses;
pub mod laws;
mod marks;
mod propagator;
mod rows;
mod trail;
mod watches;

pub use clauses::clause_at;
pub use trail::{Propagated, Trail};
