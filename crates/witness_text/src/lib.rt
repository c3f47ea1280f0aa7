//! A witness with the logs of its obligations as text, both ways: the lines from `witness` to `end` of a document of version 7, and
//! of a circuit's comment.
//!
//! `read_witness` gives what these lines state, as far as each is what is wanted there, and the first that isn't; `write_witness`
//! writes exactly the lines of a witness and its logs. Nothing here knows the circuit or the formula that a witness is for, nor
//! whether a log is legal. Stands on truth_witness, and on document_text, which has the lines that all versions share.
#![tactic(auto)]

mod forms;
pub mod laws;
mod lines;
mod logs;
mod numbers;
mod reading;
mod statement;
mod write;

pub use lines::{Following, WitnessCounts, WitnessLines, WitnessProof};
pub use reading::read_witness;
pub use write::write_witness;
