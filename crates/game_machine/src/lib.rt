//! Games of both sides of a text. `find` plays them by rounds, makes the win of the first that wins small, and gives a circuit of it, in
//! which no table of all letters is made. Proved is that it is safe and returns; what it gives is tested by who uses it. It stands on
//! safety_game for the games, and on aiger_text for circuits.
#![tactic(auto)]

mod answering;
mod circuits;
mod class_machines;
mod fewer_states;
mod finding;
mod functions;
mod gates;
mod given_tables;
mod great_positions;
mod making;
mod products;
mod sides;
mod spare_positions;

pub use class_machines::{ClassMachine, MOST_MOVES, Move};
pub use finding::{Contest, End, Found, Outcome, find};
pub use given_tables::{GivenTable, move_circuit, table_circuit};
pub use safety_game::Budget;
