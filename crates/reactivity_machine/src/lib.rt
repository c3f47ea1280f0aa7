//! Who wins a text by the game of reactivity(1) over its conjuncts, with the circuit of a machine of the win. Proved is that it is safe and
//! returns; what it gives is tested by who uses it. It stands on reactivity_game for the game and on game_machine for circuits.
#![tactic(auto)]

mod finding;
mod joining;
mod moves;

pub use conjunct_monitors::{Budget, Limit, Usage};
pub use finding::{Found, Outcome, Question, Why, find};
