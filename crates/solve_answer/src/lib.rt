//! The answer of `solve`: from a text to the bytes that are written and a status.
//!
//! The contract above this layer: `solve` gives what `SolveAnswers` says of the text. It is the line of the text's first fault, or a
//! document of version 6 that the test of documents accepts, with status 10, 20 or 30 by its verdict. Finding is left to engines that owe
//! no law to it, game_machine, reactivity_machine, machine_reductions, annotation_maker and letter_search: what they give is printed only where
//! solve_check has accepted these very bytes. They end where the time of the text is over, of which nothing is promised.
#![tactic(auto)]

mod answering;
mod conjunct_game;
mod deadlines;
mod discoveries;
mod documents;
mod finding;
mod reducing;
mod refuting;
mod remarking;
mod shrinking;
mod testing;
mod told;
mod unwon;

pub use answering::{GAME_BUDGET, solve};
pub use game_machine::Budget;
pub use refuting::Refuting;
