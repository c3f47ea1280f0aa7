//! Learning from a conflict: the clause of the first unique implication point, with the hints by which it follows.
//!
//! The contract above this layer: the learnt clause follows from the base clauses and the entries, is false under the trail, and has
//! exactly one literal of the highest level of the falsified clause. Stands on unit_propagate.
#![tactic(auto)]

mod analysis;
mod clauses;
mod conflicts;
mod implications;
mod places;

pub use clauses::clause_of;
pub use conflicts::{Learned, learn};
