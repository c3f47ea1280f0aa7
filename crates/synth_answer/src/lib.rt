//! The answer of `synth`: from the bytes of a text to the bytes of a document and a status.
//!
//! The contract above this layer: `answer` gives what `Answers` says of the text. It is the line of the text's first fault, or a
//! document that holds for the text, whose circuit, read back, does what its status says, with logs over the text's base clauses.
//! It stands on text_ground for the problems of a text, on synth_engine for the search, on gate_build for circuits, on document_text
//! for documents and on satisfaction for what machines and circuits owe to a text. `laws` has that the number of states doesn't
//! depend on what bounded the search.
#![tactic(auto)]

mod answering;
mod documents;
mod facts;
pub mod laws;
mod outcomes;
mod telling;

pub use answering::{Answered, TextAnswer, answer, answer_on, told_answer};
