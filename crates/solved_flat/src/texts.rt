//! A text as `solve` takes it, beside its flat sections.
ghost use Rattle.std.specs.Prelude.{◌≡◌, ℕ, Bool, List, Option as Maybe, IfOk};
ghost use Rattle.letters_and_lassos.specs.declared.kinds.Kind.{Kind as Given};
ghost use Rattle.program_replies.specs.Statuses.{status_number};
ghost use Rattle.solve_ground.specs.SolveText.{IsSolveText};
ghost use Rattle.solved_flat.specs.Expand.{ExpandSolveAnswers};
ghost use Rattle.solved_flat.specs.Lasso.{LassoSolveAnswers};
ghost use Rattle.solved_flat.specs.Taken.{CanBeAnswered, IfRefused, IfTaken, IsTaken, IsWholly, bytes_of_taken};

use flat_lines::laws::expanded_can_be_written;
use flat_text::expand_text;
use flat_text::laws::{flat_texts_are_determined, flat_texts_have_no_fault};
use kind_conversion::{Shift, shift_of};
use letters_and_lassos::Kind;
use program_replies::{Reply, refusal};
use solve_ground::{SolveText, solve_text};
use std::alloc::{AllocError, Global};
use text_limits::LARGE_LIMITS;
use tlsf_expand::Spec;

/// A text as `solve` takes it.
#[derive(Drop)]
pub struct TakenText {
    /// Its flat form as it is written, of the kind of the machines.
    pub spec: Spec,
    /// What `solve` knows of it, in a list that has the converted formulas where kinds differ.
    pub known: SolveText,
}

impl TakenText {
    ghost use Rattle.solved_flat.specs.Taken.{shift_seen};

    /// Which signals its formulas take from the next position, where SEMANTICS and TARGET are different kinds.
    pub fn shift(&self) -> Option<Shift>
        ensures { result ≡ shift_seen self.now }
    {
        match self.known.semantics {
            Some(semantics) => shift_of(semantics, self.known.kind),
            None => None,
        }
    }
}

/// What came of taking a text.
#[derive(Drop)]
pub enum Taking {
    Taken(TakenText),
    /// The reply to a text with a fault.
    Refused(Reply),
}

/// A text, taken as `solve` takes it, or the reply with the line of its first fault, which answers it whatever else was asked. A given kind stands for
/// SEMANTICS and TARGET both. The text is read twice, since what `solve` knows of it has no sections.
pub fn taken_text(alloc: Global, text: &[u8], given: Option<Kind>) -> Result<Taking, AllocError>
    ensures taken { IfOk result (IfTaken (IsTaken text.now given)) }
    ensures answerable { IfOk result (IfTaken CanBeAnswered) }
    ensures answers { IfOk result (IfTaken (λ t. (with_nodes : Bool) → ExpandSolveAnswers text.now given with_nodes (bytes_of_taken with_nodes t) 0)) }
    ensures refused { IfOk result (IfRefused (λ r. (with_nodes : Bool) → ExpandSolveAnswers text.now given with_nodes r.bytes.items (status_number r.status))) }
    ensures refused_to_words { IfOk result (IfRefused (λ r. (word : List ℕ) → LassoSolveAnswers text.now given word r.bytes.items (status_number r.status))) }
{
    match solve_text(alloc, text, given) {
        Ok(known) => with_sections(alloc, text, known),
        Err(fault) => Ok(Taking::Refused(refusal(alloc, fault)?)),
    }
}

/// The text with its flat sections. A text that `solve` takes has no fault.
fn with_sections(alloc: Global, text: &[u8], known: SolveText) -> Result<Taking, AllocError>
    ensures { (given : Maybe Given) → IsSolveText text.now given known → IfOk result (IsWholly text.now given) }
{
    expanded_can_be_written();
    flat_texts_are_determined();
    flat_texts_have_no_fault();
    match expand_text(alloc, text, Some(known.kind), LARGE_LIMITS) {
        Ok(spec) => Ok(Taking::Taken(TakenText { spec, known })),
        Err(fault) => Ok(Taking::Refused(refusal(alloc, fault)?)),
    }
}
