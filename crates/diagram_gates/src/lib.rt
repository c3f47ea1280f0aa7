//! And-gates from decision diagrams. `literals_of` makes a choice of each node, or less, and `literal_between` a sum of products of two
//! bounds between which a function may lie. Gates are shared by all functions of one `Gates`. Proved is that it is safe and returns; what gates
//! mean is tested. It stands on decision_diagrams.
#![tactic(auto)]

mod choices;
mod gates;
mod products;
#[cfg(test)]
mod tests;

pub use choices::literals_of;
pub use gates::{Gate, Gates};
pub use products::{Bounds, Products};
