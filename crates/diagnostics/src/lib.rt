//! What a run of the program says on standard error: why a text, a line or a word is refused, why there is no verdict, what couldn't be
//! read or written, and, where that is wanted, what was found.
//!
//! `message` makes it from what was seen of a run from around it: its words, its status, copies of its files (`KeptFiles`), and which refusals it
//! wrote and what was told of its answers (`Heard`). It promises safety, and that a place's line is the one that it stands in; what it says changes
//! nothing of a run. Stands on outcome_news for what is told, on tlsf_tokens for the tokens around a place, on program_words for the commands, on
//! shown_text for what a terminal may be given, and on strsim for the nearest name.
#![tactic(auto)]

mod answers;
mod around;
mod declared;
mod excerpts;
mod heard;
mod help;
mod kept;
mod line_faults;
mod line_rules;
mod messages;
mod nearest;
mod nexts;
mod notes;
mod own_words;
mod places;
mod progress;
mod remarks;
mod sentences;
mod signal_names;
mod slips;
mod solved;
mod solved_rules;
mod text_faults;
mod unknown;
mod unsolved;
mod wrong_words;

pub use heard::{Heard, KeptTold};
pub use help::help_page;
pub use kept::{KeptFile, KeptFiles};
pub use messages::{Seen, message};
pub use own_words::{OWN_WORDS, OwnWords, read_own_words};
pub use progress::{Phase, SizeTurns, batch_line, phase_line, progress_line};
pub use solved::found_line;

/// The version of the program, which is that of the file VERSION.
pub const VERSION: &str = "0.3.0";
