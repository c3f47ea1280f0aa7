//! The answers of `expand` and `lasso`: from the bytes of a text, and of a word, to what is printed and the status.
//!
//! The contract above this layer: `expanded` gives the flat text, which is then written out or asked about a word, or the reply
//! to a text with a fault; `lasso_answer` gives what `LassoAnswers` says. Laws say when each answer comes. Stands on flat_text for
//! the flat text, on flat_lines for its lines, on lasso_word for words and on lasso_eval for the truth on one.
#![tactic(auto)]

pub mod laws;
mod texts;
mod words;

pub use texts::{Expansion, expanded};
pub use words::{lasso_answer, truth_line};
