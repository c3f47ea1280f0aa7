//! Documents of version 6: a circuit, its verdict, the logs of the sizes that are refuted, and an annotation, as text both ways.
//!
//! `is_sixth` says which bytes are such a document's, `read_solved` gives what their lines state and the first line that isn't what is
//! wanted there, as far as that needs no text, and `write_solved` writes exactly a document's lines. What the annotation's lines state
//! is read elsewhere, from the place that is given of it. Stands on document_text, which has the lines that all versions share.
#![tactic(auto)]

mod annotation;
mod documents;
mod header;
mod heads;
pub mod laws;
mod letters;
mod logs;
mod reading;
mod write;

pub use annotation::AnnotationPlace;
pub use documents::{Document, SizeLog, Verdict};
pub use header::Header;
pub use letters::{LetterList, Letters};
pub use reading::{SolvedLines, is_sixth, read_solved};
pub use write::write_solved;
