//! The base clauses of a problem over some of the letters that its machines read: those of version 3 as far as they speak of these
//! letters. So they are fewer, and what refutes them refutes the problem's size.
//!
//! The contract above this layer: `laws::closed_logs_refute`, and of a `LetterSize` `count` and `encode`, exactly the number of clauses and
//! the clauses of the definition. It stands on product_bound, annotation_encode and refutation_log.
#![tactic(auto)]

mod clauses;
mod counting;
pub mod laws;
mod sizes;

pub use sizes::LetterSize;
