//! Documents: a circuit, its verdict, and the logs that show that nothing smaller exists, as text both ways.
//!
//! `write_document` writes exactly a document's lines, `read_document` gives the one document that bytes state, or the first line
//! that isn't what is wanted there, and `read_lines` what is good before that line. Nothing here knows the text that a document is
//! for, nor whether a log is legal. Stands on aiger_text and refutation_log.
#![tactic(auto)]

mod documents;
mod header;
pub mod laws;
mod logs;
mod order;
mod reader;
mod reading;
mod words;
mod write;

pub use documents::{Document, DocumentFault, LogPart, Verdict};
pub use header::{Header, kind_at};
pub use logs::{FirstEntries, first_entries};
pub use order::{Order, Place, order_of};
pub use reader::{DocumentReader, read_document};
pub use reading::{CircuitPart, DocumentLines, all_named, fault_line, read_lines};
pub use words::{behind, capped, in_range};
pub use write::write_document;
