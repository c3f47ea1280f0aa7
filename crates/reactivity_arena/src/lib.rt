//! The arena of a game over monitors: their product, explored on the fly, with the classes of letters that they tell apart. Where a conjunct
//! is broken, what follows for the others is put into the product at once. Proved is that it is safe and returns. It stands on
//! conjunct_monitors.
#![tactic(auto)]

mod arenas;
mod links;
mod products;
mod rows;
mod settling;

pub use arenas::Arena;
pub use links::{Link, Links};
pub use products::{Fate, Product, Way};
pub use rows::{Cast, mark_of};
