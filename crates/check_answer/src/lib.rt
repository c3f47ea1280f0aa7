//! The answer of `check`: from a text and a certificate to the line that is written and a status.
//!
//! The contract above this layer: `check_answer` gives what `CheckAnswers` says of the text and the certificate. It is the line of the
//! text's first fault, that of the certificate's first bad line for the text, or that of the document that it states, whose closed logs
//! refute their sizes. A document of version 6 is tested against the text as `solve` takes it, within larger limits. The text is read
//! first, by `text_for_check`. Stands on spec_problems for the problems of a text, on document_check and solve_check for the tests of
//! documents, and on text_ground and solve_ground for what the text wants.
#![tactic(auto)]

mod answering;
mod earlier;
pub mod laws;
mod lines;
mod solved;

pub use answering::{TextForCheck, check_answer, problems_for_check, text_for_check};
