//! Lemmas about the standard library that proofs of several crates cite.
//!
//! There is nothing to call: other crates' proofs cite these files by their names. It stands on the standard library alone.
#![tactic(auto)]
