//! Documents as a whole, from bytes at once or in pieces.
ghost use Rattle.std.specs.Prelude.{◌≡◌, ℕ, ◌++◌, [], false, OnOk, OnErr, IfOk, IsErrOf, IsTrue};
ghost use Rattle.document_text.specs.declared.documents.DocumentFault.TheVariants.{BadLine};
ghost use Rattle.document_text.specs.Reading.{IsFirstBadLine};
ghost use Rattle.document_text.specs.States.{States};

use crate::documents::{Document, DocumentFault};
use crate::reading::read_lines;
use std::alloc::{AllocError, Global};
use std::marker::Model;

/// Reads a document, or says the first line that isn't what is wanted there. Whether a log is legal, closed or full isn't tested,
/// nor whether names, numbers and logs are those of a text.
///
/// It is linear in the bytes.
pub fn read_document(alloc: Global, bytes: &[u8]) -> Result<Document, DocumentFault>
    ensures ok { IfOk result (States bytes.now) }
    ensures bad_line { (n : ℕ) → IsErrOf result (BadLine n) → IsFirstBadLine bytes.now n }
{
    let lines = read_lines(alloc, bytes)?;
    if let Some(line) = lines.bad {
        return Err(DocumentFault::BadLine(line));
    }
    match lines.into_document(alloc) {
        Some(document) => Ok(document),
        None => unreachable!(),
    }
}

/// A document that comes in pieces. A contract sees the bytes so far, and whether memory was wanted for one of them.
#[derive(Drop)]
pub struct DocumentReader {
    alloc: Global,
    bytes: Vec<u8>,
    lost: bool,
}

impl Model for DocumentReader {
    ghost use Rattle.document_text.specs.Reading.{Fed};

    ghost Value = { Fed };

    ghost view = { λ r. record { bytes = r.bytes.items; lost = r.lost } };
}

impl DocumentReader {
    /// A reader without bytes.
    pub fn new(alloc: Global) -> DocumentReader
        ensures { result ≡ record { bytes = []; lost = false } }
    {
        DocumentReader {
            alloc,
            bytes: Vec::new(alloc),
            lost: false,
        }
    }

    /// Adds a piece. After want of memory each later call answers that too.
    pub fn feed(&mut self, piece: &[u8]) -> Result<(), AllocError>
        ensures ok { OnOk result ((self.old.lost ≡ false) × (self.new ≡ record { bytes = self.old.bytes ++ piece.now; lost = false })) }
        ensures err { OnErr result (IsTrue self.new.lost) }
    {
        if self.lost {
            return Err(AllocError);
        }
        match self.bytes.extend_from_slice(piece) {
            Ok(()) => Ok(()),
            Err(error) => {
                self.lost = true;
                Err(error)
            }
        }
    }

    /// What `read_document` answers on the bytes so far, however they were cut.
    pub fn finish(self) -> Result<Document, DocumentFault>
        ensures ok { IfOk result (λ document. (self.lost ≡ false) × States self.bytes document) }
        ensures bad_line { (n : ℕ) → IsErrOf result (BadLine n) → (self.lost ≡ false) × IsFirstBadLine self.bytes n }
    {
        if self.lost {
            return Err(DocumentFault::NoMemory);
        }
        read_document(self.alloc, &self.bytes)
    }
}
