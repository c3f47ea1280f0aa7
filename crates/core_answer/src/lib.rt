//! The answer of `core`: guarantees of a text that can't be met together.
//!
//! The contract above this layer: `core_answer` gives what `CoreAnswers` says of the text. It is the line of its first fault, the answer
//! of `synth` where that has no counter-machine, or guarantees with a document that defeats over them, and for each of them what
//! comes without it. It stands on synth_answer for what answers a text with some of its guarantees, and on unrealizable_core for their formulas
//! and for which guarantee is left out next.
#![tactic(auto)]

mod answering;
pub mod laws;
mod lines;
mod over;
mod shrinking;

pub use answering::core_answer;
