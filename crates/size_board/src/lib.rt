//! The board of sizes: which sizes of each side are open, claimed, found, refuted or full, as its journal tells.
//! The contract above this layer: whenever a call returns, no size that is marked refuted has an accepted machine,
//! each kept machine is accepted by its side, and the state of each size is the replay of the journal. The type keeps
//! this, so it holds each time a lock round a board is taken. It stands on machine_model, letters_and_lassos and text_limits. The laws are in
//! `laws`.
#![tactic(auto)]

mod boards;
mod events;
pub mod laws;
mod names;

pub use boards::Board;
pub use events::{Claim, Event, SizeState};
pub use names::ProblemNames;
