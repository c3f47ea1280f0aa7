//! The text of a lasso: an infinite word of letters over named signals, with a stem and a ring.
//!
//! `read_word` gives exactly the lasso that the text states, or the number of its first line that is refused. What a text
//! states stands in `specs/`. Stands on `letters_and_lassos` for letters and lassos, and on `names_and_numbers` for names.
#![tactic(auto)]

pub mod laws;
mod letters;
mod lines;
mod word;

pub use word::{WordFault, read_word};
