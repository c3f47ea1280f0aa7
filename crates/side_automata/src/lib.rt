//! The two sides against each other: the automata of both sides of a formula, and the one lasso that a machine and a
//! counter-machine run. The contract above this layer: the automata accept exactly the lassos on which the formula is
//! false, or true, so the environment's side accepts exactly the machines that defeat every machine, of any size; `play`
//! constructs a play, and two plays are the same word. It stands on cobuchi_build. The laws are in `laws`.
#![tactic(auto)]

mod automata;
pub mod laws;
mod plays;

pub use automata::{Automata, problems};
pub use plays::play;
