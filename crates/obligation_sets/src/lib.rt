//! Covers of a set of obligations: each is one way to meet the set, a cube that the letter must fit, what is left to
//! the next position, and the untils that were put off. Reduced covers leave no more than they must, and the minimal
//! ones stay. The contract above this layer: the covers are the list of the definition, and a set holds at a position
//! exactly where some cover's cube fits there and its next set holds at the next position. It stands on ltl_formula,
//! letters_and_lassos and indexmap. The laws are in `laws`.
#![tactic(auto)]

mod asking;
mod branches;
mod cover_search;
mod forks;
pub mod laws;
mod sets;

pub use cover_search::{CoverFault, MAX_LEAVES, covers};
pub use sets::{Cover, Covering, ObligationSet};
