//! The answer of `batch`: many texts, answered by one pool of workers.
//!
//! The contract above this layer: `read_list` gives exactly the names of a list, or the number of its first bad line, and
//! `batch_answer` gives what `BatchAnswers` says of the names and the texts. For each text its bytes have lines and a status that answer
//! that text alone. It stands on batch_run for the pool and on synth_answer for each text.
#![tactic(auto)]

mod answering;
mod file_name;
pub mod laws;
mod list;
mod parts;
mod texts;

pub use answering::batch_answer;
pub use file_name::FileName;
pub use list::{ListFault, read_list};
pub use parts::batch_text;
pub use texts::{TakenText, too_long};
