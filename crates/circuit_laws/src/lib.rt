//! What circuits owe to what a text wants, beside the machines. The contract above this layer is its laws: where no machine of some
//! size satisfies, or each of the environment can lose, no circuit with so many states satisfies, or defeats; and a circuit of the
//! environment defeats every machine exactly where what is wanted is false on each of its run lassos. It stands on circuit_machines
//! and satisfaction.
#![tactic(auto)]

pub mod laws;
