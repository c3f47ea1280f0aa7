//! What the programs have in common around what they do: `--help`, `--version`, `-o FILE`, and `-` for standard input.
//!
//! `asked_of` finds what is asked of the program itself, `take_output` takes `-o FILE` out of the words before others, `ProgramOutput` is standard
//! output or that file, and `file_of` and `with_input` give standard input the name that the system opens it by. They promise safety, and of the
//! output what each sink promises. Stands on input_output for sinks.
#![tactic(auto)]

mod asked;
mod messages;
mod outputs;
mod standard_input;
mod targets;

pub use asked::{Asked, asked_of, left_output, take_output};
pub use messages::{twice_message, unwritten_message};
pub use outputs::ProgramOutput;
pub use standard_input::{file_of, is_input, with_input};
