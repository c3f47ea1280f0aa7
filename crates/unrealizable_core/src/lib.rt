//! What the search for guarantees that can't be met together needs besides syntheses: a text's formulas with some of its
//! guarantees in a list of their own (`whole_of`), and which guarantee is left out next (`Shrink`). The contract above this layer:
//! the formula of the whole is true exactly where the text's is with those guarantees, and each guarantee that is kept at the
//! end was found needed beside the others. It stands on tlsf_expand for what joins the sections of a text, and on ltl_formula
//! for lists of formulas.
#![tactic(auto)]

mod copies;
pub mod laws;
mod shrink;
mod whole;

pub use shrink::Shrink;
pub use whole::{Reduced, whole_of};
