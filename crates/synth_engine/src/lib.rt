//! The search for a smallest machine: the sizes of both sides are searched in turns, and at one size all workers share one log.
//!
//! The contract above this layer: `search` gives an accepted machine with a log of each smaller size of its side, or none with the
//! logs of all allowed sizes; each log is closed or full, and a closed one refutes its size. It stands on size_search for the turns
//! at one size, and on size_board for which size a worker takes next.
#![tactic(auto)]

mod concluding;
mod crews;
mod hands;
mod outcomes;
mod plans;
mod searching;
mod settings;
mod settling;
mod sizes;
mod workers;

pub use outcomes::{Found, Outcome};
pub use searching::search;
pub use settings::Settings;
