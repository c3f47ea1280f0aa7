//! Machines, co-Büchi automata, and what a run, a play, an accepted word and an accepted machine are.
//! A machine is a kind and a table; its run lassos are lassos of whole letters with a state at each
//! position. The contract above this layer: every lasso of read letters has a run, and only one word
//! of it; being accepted is a property of the word. It stands on letters_and_lassos. The laws are in `laws`.
#![tactic(auto)]

mod automata;
mod components;
mod counting;
pub mod laws;
mod machines;
mod marks;
mod names;
mod problems;
mod reached;
mod runs;

pub use automata::{Automaton, AutomatonFault, Edge};
pub use components::Components;
pub use counting::{Counting, Counts};
pub use machines::{Machine, MachineFault, Row};
pub use problems::Problem;
pub use runs::{RunLasso, run_lasso, whole_letter};
