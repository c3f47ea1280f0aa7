//! The answer of `batch --solve`: many texts, each solved on its own, by one pool of workers.
//!
//! The contract above this layer: `solve_batch` gives what `SolvedBatchAnswers` says of the names and the texts. For each text its bytes have
//! lines and a status that answer that text alone, as `solve` does. It stands on batch_run for the pool, on solve_answer for each text, and on
//! batch_answer for how the parts are written.
#![tactic(auto)]

mod answering;
mod texts;

pub use answering::solve_batch;
