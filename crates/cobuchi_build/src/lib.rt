//! The universal co-Büchi automaton of a formula in normal form. A state is a set of obligations and a counter of the
//! until formulas that were met in turn; a cover of the set gives an edge. The contract above this layer: `build` gives
//! the automaton of the definition, or says exactly where it passes a limit, and the automaton accepts exactly the
//! lassos on which the formula is true. It stands on obligation_sets and machine_model. The laws are in `laws`.
#![tactic(auto)]

mod building;
mod cover_table;
mod exploring;
pub mod laws;
mod untils;

pub use building::{BuildFault, build};
pub use exploring::{State, counter_after};
pub use untils::{occurring, untils_of};
