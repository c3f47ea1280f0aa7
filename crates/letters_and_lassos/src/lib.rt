//! Letters, cubes of letters and lassos: the words that every later theorem speaks of.
//! A letter is a set of signals, a cube a condition on letters, a lasso an infinite word given by a
//! stem and a ring. The contract above this layer: a lasso is its infinite word, and `unrolled` is
//! the same word. It stands on std alone. The laws of positions and words are in `laws`.
#![tactic(auto)]

mod cubes;
mod kinds;
mod lassos;
pub mod laws;
mod letters;

pub use cubes::Cube;
pub use kinds::{Kind, Side};
pub use lassos::{Lasso, LassoFault};
pub use letters::Letter;
