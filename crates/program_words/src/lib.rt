//! The words of the command line.
//!
//! `read_words` gives exactly the settings that the words ask for, or refuses them; which words ask for what is
//! `settings_of` in `specs/`. `COMMANDS` is the table of the commands for who tells of them. Stands on `clap`, whose matches are all that is read, and on `names_and_numbers` for numbers.
#![tactic(auto)]

mod command_line;
mod commands;
pub mod laws;
mod numbers;
mod ranges;
mod settings;
mod wishes;
mod words;

pub use commands::{COMMANDS, Command, Part, SOLVE_LIST, SOLVE_LIST_WORDS, Values, command_of};
pub use ranges::{
    BRIEF_ENTRIES, MOST_ALONE, MOST_ENTRIES, MOST_REFUTED, MOST_SECONDS, USUAL_ENTRIES,
};
pub use settings::Settings;
pub use wishes::{Solving, Wishes, read_wishes};
pub use words::{WordsFault, read_words};
