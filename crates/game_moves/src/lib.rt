//! The moves of safety games. A position has for each state of the automaton no number or the greatest number of marks that a run to it
//! met. `Game::expand` gives the classes of letters that are read in a position, on which most happens, and to each the answers by which
//! least happens; `Game::readings` says which letters are in which class. Proved is that all is safe and returns. It stands on game_arena.
#![tactic(auto)]

mod bit_sets;
mod expansions;
mod items;
mod letter_classes;
mod positions;
mod read_splits;
mod tallies;
mod write_splits;

pub use expansions::{Candidate, Class, Game};
pub use letter_classes::Reading;
pub use positions::Positions;
