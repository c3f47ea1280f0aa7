//! Truth of a flat formula at a position of a lasso, by one row of truth values for each node. The contract
//! above this layer: `holds_at` answers the definition of truth. It takes time and memory in proportion to
//! nodes times positions; Until and Release go twice round the ring. It stands on ltl_formula and letters_and_lassos.
#![tactic(auto)]

mod evaluate;
mod rows;

pub use evaluate::holds_at;
