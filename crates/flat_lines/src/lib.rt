//! A flat text written out: its kind, the names of its signals, and a line for each formula.
//!
//! `put_flat` gives a sink exactly the lines that the definition in `specs/` has for a text that was expanded. Stands on
//! `tlsf_expand` for the flat text, on `ltl_formula` for the text of a formula, and on `input_output` for the sink.
#![tactic(auto)]

pub mod laws;
mod lines;
mod names;
mod put;

pub use names::all_names;
pub use put::{put_flat, put_flat_by};
