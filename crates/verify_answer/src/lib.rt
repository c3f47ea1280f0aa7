//! The answer of `verify`: from a text and a circuit's file with an annotation to the line that is written and a status.
//!
//! The contract above this layer: `verify_answer` gives what `CircuitAnswers` says of a side, the text and the file. It is the line of the
//! text's first fault, that of the file's first bad line for the text, or what is verified; and then the circuit satisfies the text, or
//! defeats every machine, by the meaning of the written tree. The text is read first, by `text_for_verify`. A file whose annotation names its states is tested by circuit_check against the
//! text as `solve` takes it (solve_ground); another one by annot_check against the system's automaton (spec_problems).
#![tactic(auto)]

mod answering;
pub mod laws;
mod listed;
mod named;
mod texts;

pub use answering::verify_answer;
pub use listed::listed_answer;
pub use texts::{TextForVerify, problems_for_verify, text_for_verify};
