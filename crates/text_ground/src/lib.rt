//! What every answer to a text stands on: what the text wants, and the problems of its two sides, or the reply to its first fault.
//!
//! The contract above this layer: `problems_or_refusal` gives a text's problems with what their automata accept, or the line of its
//! first fault; `laws::sides_mean` joins what an automaton accepts to what a text wants of machines. It stands on spec_problems for the
//! problems, on satisfaction for what machines owe, and on document_check for what a document is tested against; no search is below it.
#![tactic(auto)]

pub mod laws;
mod texts;

pub use texts::{Problems, automata_are_kept, facts_of, problems_or_refusal};
