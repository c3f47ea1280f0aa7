//! The law that a text which `solve` takes by its own kinds is taken with the kind of its machines given, too.
#![tactic(auto)]

pub mod laws;
