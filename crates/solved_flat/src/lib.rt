//! The answers of `expand --solve` and `lasso --solve`: from the bytes of a text as `solve` takes it, and of a word, to what is printed and the status.
//!
//! The contract above this layer: `taken_text` gives the text, which is then written out by `put_taken`, with the list of its formulas where that is
//! asked for, or asked about a word by `lasso_solve_answer`; or the reply to a text with a fault. Laws say when each answer comes. Stands on
//! solve_ground for what `solve` knows of a text, on flat_text and flat_lines for its flat sections, on lasso_word for words and on lasso_eval for the
//! truth on one.
#![tactic(auto)]

pub mod laws;
mod lists;
mod names;
mod put;
mod texts;
mod words;

pub use put::put_taken;
pub use texts::{TakenText, Taking, taken_text};
pub use words::lasso_solve_answer;
