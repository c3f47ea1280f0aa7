//! Documents checked against a text: whether their logs stand over the base clauses of this very text, and what else must fit.
//!
//! `check_document` gives the document that bytes state, where it holds for the text, or the first line that fails. Its yes says of
//! each log that it is legal and closed, or full where that is allowed. Stands on document_text, annotation_encode and log_checker.
#![tactic(auto)]

mod check;
mod circuits;
mod counted;
mod facts;
pub mod laws;
mod logs;

pub use check::check_document;
pub use circuit_names::earliest;
pub use circuits::{faulty_line, stated_line};
pub use facts::{TextFacts, counts_for};
pub use logs::first_open;
