//! Games of generalised reactivity(1) over the product of monitors: where all assumptions are met again and again, all guarantees are.
//! `play` explores the product, finds who wins by the triple fixpoint, and gives the winner's strategy as diagrams. Proved is that it is
//! safe and returns; what it gives is tested by who uses it. It stands on reactivity_arena for the product.
#![tactic(auto)]

mod fixpoints;
mod playing;
mod solutions;
mod strategies;
mod traps;
mod views;

pub use playing::{Played, Players, play};
pub use strategies::{Action, Strategy};
