//! The base clauses of a problem: that a machine of its size has an annotation within the bound.
//!
//! The contract above this layer: `encode` gives exactly the clauses of the definition, in their order, and where the
//! side accepts some machine of the problem some assignment meets them all: `assignment_of` gives that of a machine and
//! a valid annotation. `count` is their number, and
//! `allowed_sizes` the number of sizes for which there aren't too many. `variables`, `var_move`, `var_write` and `var_count` are the numbers of
//! the variables, and no two variables of different meaning are the same. It stands on product_bound and propositional_logic.
#![tactic(auto)]

mod assigning;
mod clauses;
mod counting;
pub mod laws;
mod numbering;

pub use assigning::assignment_of;
pub use clauses::{encode, number_has};
pub use counting::{allowed_sizes, count};
pub use numbering::{
    Numbering, letter_count, row_count, var_count, var_move, var_write, variables,
};
