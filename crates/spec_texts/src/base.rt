//! The base clauses of a document's logs.

ghost use Rattle.std.specs.Prelude.{◌≤◌};
ghost use Rattle.document_check.specs.Shown.{AreFactsFor, facts_of as facts_seen};

use annotation_encode::encode;
use document_check::TextFacts;
use letters_and_lassos::{Kind, Side};
use propositional_logic::Cnf;
use std::alloc::{AllocError, Global};

/// What a document's logs are over: a text, with the document's kind and version.
#[derive(Clone, Copy)]
pub(crate) struct Over<'a> {
    pub(crate) facts: TextFacts<'a>,
    pub(crate) kind: Kind,
    pub(crate) version: u32,
}

/// The base clauses of one side for a number of states; none where the text has no such side.
pub(crate) fn base_of(
    alloc: Global,
    over: Over<'_>,
    side: Side,
    size: u32,
) -> Result<Option<Cnf>, AllocError>
    requires facts { AreFactsFor over.version (facts_seen over.facts) }
    requires some { 1 ≤ size }
    requires few { size ≤ 8 }
{
    match over.facts.problem_at(over.kind, over.version, side, size)? {
        Some(problem) => Ok(Some(encode(alloc, &problem)?)),
        None => Ok(None),
    }
}
