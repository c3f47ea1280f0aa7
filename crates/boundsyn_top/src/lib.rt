//! The program's one call: words in, lines and a status out.
//!
//! `run` carries the headline: what it writes whole, with its status, is the answer to what the words ask for, and only a fault
//! from outside or want of memory keeps it from that. The answers of commands are definitions of the crates that give them.
//! Stands on those crates, on program_words for the words and on input_output for files and for what is written.
#![tactic(auto)]

mod arbiters;
mod batches;
mod certificates;
mod circuits;
mod cores;
mod files;
mod flat;
pub mod laws;
mod lines;
mod output;
mod replies;
mod solved_texts;
mod solving;
mod synthesis;
mod top;

pub use laws::run_over_plain;
pub use top::run;
