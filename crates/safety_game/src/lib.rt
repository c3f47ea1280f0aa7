//! Safety games that find a machine: the player keeps the number of rejecting states that a run meets, inside one component of a universal
//! co-Büchi automaton, at most at some bound. `Rounds` plays with rising bounds and growing slices of steps, and gives the positions and
//! answers of a win. Proved is that it is safe and returns; what it finds is tested by who uses it. It stands on game_moves.
#![tactic(auto)]

mod rounds;
mod search;
mod search_state;
mod wins;

pub use rounds::{Budget, Rounds};
pub use search_state::Answer;
pub use wins::{Win, WinNode};
