//! The flat sections of a written text, and its meaning. `expand` gives exactly the sections that the definition in
//! `specs/` gives, or the text's first fault of those that come after reading and before normal forms; and the flat
//! formula of the whole holds on a lasso exactly where the text, read directly on its written tree, means so. It stands
//! on tlsf_values for the values of expressions, on tlsf_syntax for the written text and on ltl_formula for the list of
//! flat formulas.
#![tactic(auto)]

mod enumerations;
mod expansion;
pub mod laws;
mod sections;
mod signals;
mod spec;
mod whole;

pub use expansion::expand;
pub use spec::Spec;
pub use whole::whole_formula;
