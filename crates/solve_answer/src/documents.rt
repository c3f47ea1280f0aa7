//! Documents as they are printed.
ghost use Rattle.std.specs.Prelude.{◌≡◌, IfOk};
ghost use Rattle.solved_text.specs.Lines.{document_text};
ghost use Rattle.solve_answer.specs.Parts.{unknown_document};

use crate::finding::Strategy;
use letters_and_lassos::Side;
use solve_ground::SolveText;
use solved_text::{Document, Verdict, write_solved};
use std::alloc::{AllocError, Global};

/// The document of a strategy, which refutes no size. It is still to be tested.
pub(crate) fn strategy_document(alloc: Global, text: &SolveText, strategy: Strategy) -> Document {
    let Strategy {
        side,
        states,
        circuit,
        annotation,
    } = strategy;
    Document {
        verdict: match side {
            Side::System => Verdict::Realizable(states),
            Side::Environment => Verdict::Unrealizable(states),
        },
        kind: text.kind,
        converted: text.semantics.is_some(),
        circuit: Some(circuit),
        logs: Vec::new(alloc),
        annotation,
    }
}

/// The document that says that neither was found.
pub(crate) fn unknown_text(alloc: Global, text: &SolveText) -> Result<Vec<u8>, AllocError>
    ensures { IfOk result (λ bytes. bytes.items ≡ document_text (unknown_document text.now)) }
{
    let document = Document {
        verdict: Verdict::Unknown,
        kind: text.kind,
        converted: text.semantics.is_some(),
        circuit: None,
        logs: Vec::new(alloc),
        annotation: Vec::new(alloc),
    };
    text_of(alloc, &document)
}

/// The bytes of a document.
pub(crate) fn text_of(alloc: Global, document: &Document) -> Result<Vec<u8>, AllocError>
    ensures { IfOk result (λ bytes. bytes.items ≡ document_text document.now) }
{
    let mut bytes = Vec::new(alloc);
    write_solved(document, &mut bytes)?;
    Ok(bytes)
}
