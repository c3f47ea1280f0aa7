//! A text as `solve` takes it: within larger limits, and converted where its SEMANTICS and TARGET are different kinds.
//!
//! The contract above this layer: `solve_text`, or `text_within` within other limits, gives the names and the kind of what is wanted, and both forms of its whole, of which
//! each is true exactly where its side loses, by the meaning of the text as it is written; or the text's first fault; `laws` says that it
//! is one thing. It stands on
//! tlsf_reader and tlsf_expand for flat texts, on kind_conversion, and on ltl_normal; no automaton is below it.
#![tactic(auto)]

mod forms;
pub mod laws;
mod taken;
mod texts;

pub use texts::{SolveText, solve_text, text_within};
