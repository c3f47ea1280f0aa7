//! Clauses of propositional logic, and what they mean.
//!
//! A clause is seen as the list of its literals, sorted by variable, with no variable twice: so two clauses are equal
//! exactly where they have the same literals, and none is a tautology. `specs/` says when a clause is true, satisfied,
//! falsified or unit; `laws` ties these words together. The crate stands on nothing but std.
#![tactic(auto)]

mod clauses;
mod formula;
pub mod laws;
mod literals;

pub use clauses::{Clause, ClauseFault};
pub use formula::{Assignment, Cnf};
pub use literals::Lit;
