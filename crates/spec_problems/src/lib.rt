//! One way from a text, or from a formula, to the problems of both sides: reading, expansion, normal forms and automata joined
//! under one contract. The problems meet the conditions of every call that takes one, their automata accept by the truth of the
//! formula, and a text that has none is refused with its first fault. Laws say that a text is one thing. It stands on flat_text
//! for the flat text and on side_automata for the automata.
#![tactic(auto)]

pub mod laws;
mod sides;
mod texts;

pub use sides::{Interface, SideProblems, problems_of};
pub use texts::{TextProblems, text_problems};
