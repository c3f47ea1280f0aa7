//! The machine and the annotation that a satisfying assignment of the base clauses stands for.
//!
//! The contract above this layer: where an assignment meets every base clause of a problem, `decode` gives a machine of
//! the problem and a valid annotation of it, so that the side accepts the machine. It stands on annotation_encode.
#![tactic(auto)]

mod decoding;

pub use decoding::{Decoded, decode};
