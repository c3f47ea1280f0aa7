//! What safety games are played on: the automaton of a player, made small, with marks on edges. An arena keeps for each state the ways
//! that leave it, as the player reads and writes them. Beside it stand conditions on signals, graphs with their components, and the meter
//! that counts the steps of a game. Proved is that all is safe and returns. It stands on machine_model alone.
#![tactic(auto)]

mod arenas;
mod automata;
mod graphs;
mod literals;
mod stops;
pub mod tables;

pub use arenas::{Arena, Player, Way};
pub use graphs::{Graph, Link};
pub use literals::Literals;
pub use stops::{Meter, Stop};
