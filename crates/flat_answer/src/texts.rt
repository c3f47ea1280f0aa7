//! A text that is expanded first, before anything else is read.
ghost use Rattle.std.specs.Prelude.{ℕ, List, None, IfOk, length};
ghost use Rattle.text_limits.specs.declared.TheConstants.{SMALL_LIMITS};
ghost use Rattle.ltl_formula.specs.Nodes.{IsNodeIn};
ghost use Rattle.tlsf_expand.specs.FewSignals.{HasFewSignals};
ghost use Rattle.tlsf_expand.specs.FlatText.{spec_seen};
ghost use Rattle.flat_text.specs.FlatNames.{HasPlainNames};
ghost use Rattle.flat_text.specs.FlatOf.{IsFlatOf};
ghost use Rattle.flat_lines.specs.FlatLines.{CanBeWritten};
ghost use Rattle.program_replies.specs.Statuses.{status_number};
ghost use Rattle.flat_answer.specs.Expand.{ExpandAnswers};
ghost use Rattle.flat_answer.specs.Lasso.{LassoAnswers};
ghost use Rattle.flat_answer.specs.Expansions.{IfFlat, IfRefused};

use flat_lines::laws::expanded_can_be_written;
use flat_text::expand_text;
use program_replies::{Reply, refusal};
use std::alloc::{AllocError, Global};
use text_limits::SMALL_LIMITS;
use tlsf_expand::Spec;

/// What came of expanding a text.
#[derive(Drop)]
pub enum Expansion {
    /// The flat text.
    Flat(Spec),
    /// The reply to a text with a fault.
    Refused(Reply),
}

/// A text, flat, or the reply with the line of its first fault, which answers it whatever else was asked.
pub fn expanded(alloc: Global, text: &[u8]) -> Result<Expansion, AllocError>
    ensures flat { IfOk result (IfFlat (λ spec. IsFlatOf SMALL_LIMITS text.now None (spec_seen spec))) }
    ensures few { IfOk result (IfFlat (λ spec. HasFewSignals SMALL_LIMITS (length spec.inputs.items) (length spec.outputs.items) spec.formulas)) }
    ensures names { IfOk result (IfFlat (λ spec. HasPlainNames (spec_seen spec).expanded)) }
    ensures stands { IfOk result (IfFlat (λ spec. IsNodeIn spec.formulas spec.whole)) }
    ensures writable { IfOk result (IfFlat (λ spec. CanBeWritten (spec_seen spec))) }
    ensures refused { IfOk result (IfRefused (λ r. ExpandAnswers text.now r.bytes.items (status_number r.status))) }
    ensures refused_to_words { IfOk result (IfRefused (λ r. (word : List ℕ) → LassoAnswers text.now word r.bytes.items (status_number r.status))) }
{
    expanded_can_be_written();
    match expand_text(alloc, text, None, SMALL_LIMITS) {
        Ok(spec) => Ok(Expansion::Flat(spec)),
        Err(fault) => Ok(Expansion::Refused(refusal(alloc, fault)?)),
    }
}
