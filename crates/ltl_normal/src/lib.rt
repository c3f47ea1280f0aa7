//! Normal forms: from a formula to one of constants, literals, And, Or, Next, Until and Release alone, which
//! is true where the formula is (`normal`), or where it isn't (`negated`). One table says both forms of every
//! operator; each result is simplified as it is built. The contract above this layer: truth is kept, or
//! opposed, at every position of every lasso, and the list of nodes after is exact. It stands on ltl_formula.
#![tactic(auto)]

mod forms;
mod memo;
mod simplify;

pub use forms::{negated, normal};
