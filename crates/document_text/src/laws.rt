//! Laws of documents, each the contract of a function that does nothing.
ghost use Rattle.std.specs.Prelude.{IfSome};
ghost use Rattle.aiger_text.specs.RoundTrip.{CommentsAreRead};
ghost use Rattle.document_text.specs.Laws.{DocumentsAreDetermined, WrittenIsRead};

use crate::documents::Document;
use aiger_text::{Circuit, comments_are_read};

/// Bytes are read in one way, and state one document exactly where no line is bad; else one line is the first bad one.
pub fn documents_are_determined()
    ensures { DocumentsAreDetermined }
{}

/// What is written of a well formed document states it, up to the numbers of its lines.
pub fn written_is_read(document: &Document)
    ensures { WrittenIsRead document.now }
{
    circuits_are_read(&document.circuit);
}

/// A circuit that a comment follows is read with it.
fn circuits_are_read(circuit: &Option<Circuit>)
    ensures { IfSome circuit.now CommentsAreRead }
{
    if let Some(circuit) = circuit {
        comments_are_read(circuit);
    }
}
