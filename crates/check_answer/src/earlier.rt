//! The answer to a certificate of the versions before 6.
ghost use Rattle.std.specs.Prelude.{ℕ, List, IfOk};
ghost use Rattle.document_check.specs.Shown.{AreFacts};
ghost use Rattle.program_replies.specs.Statuses.{status_number};
ghost use Rattle.solved_text.specs.Reading.{IsSixth};
ghost use Rattle.check_answer.specs.Answer.{CheckAnswers};
ghost use Rattle.check_answer.specs.Reply.{IsForCheck, IsLineRefusal, facts_for_check};

use crate::answering::problems_for_check;
use crate::lines::acceptance;
use annotation_encode::laws::sizes_rise;
use document_check::check_document;
use document_check::laws::closed_logs_refute_sizes;
use document_text::DocumentFault;
use program_replies::{Reply, refused_at_line};
use spec_problems::TextProblems;
use std::alloc::{AllocError, Global};
use std::thread::Threads;
use text_ground::laws::sides_mean;
use text_ground::{Problems, automata_are_kept, facts_of};

/// The answer to a text, and to a certificate that isn't of version 6.
pub(crate) fn earlier_answer<R: Threads + Sync>(
    rt: &R,
    alloc: Global,
    text: &[u8],
    certificate: &[u8],
) -> Result<Reply, AllocError>
    ensures { (IsSixth certificate.now → ⊥) → IfOk result (λ r. CheckAnswers text.now certificate.now r.bytes.items (status_number r.status)) }
{
    match problems_for_check(alloc, text)? {
        Problems::Of(found) => document_answer(rt, alloc, &found, certificate),
        Problems::Refused(reply) => Ok(reply),
    }
}

/// The answer to a text with these problems, and to such a certificate.
fn document_answer<R: Threads + Sync>(
    rt: &R,
    alloc: Global,
    text: &TextProblems,
    certificate: &[u8],
) -> Result<Reply, AllocError>
    requires { AreFacts (facts_for_check text.now) }
    ensures { (bytes : List ℕ) → IsForCheck bytes text.now → (IsSixth certificate.now → ⊥)
        → IfOk result (λ r. CheckAnswers bytes certificate.now r.bytes.items (status_number r.status)) }
{
    sides_mean();
    sizes_rise();
    closed_logs_refute_sizes();
    automata_are_kept(&text.problems);
    match check_document(rt, alloc, facts_of(text), certificate) {
        Ok(document) => acceptance(alloc, document.verdict, document.kind),
        Err(fault) => line_refusal(alloc, fault),
    }
}

/// The reply to a certificate with this fault.
fn line_refusal(alloc: Global, fault: DocumentFault) -> Result<Reply, AllocError>
    ensures { IfOk result (λ r. IsLineRefusal fault r.bytes.items r.status) }
{
    match fault {
        DocumentFault::BadLine(line) => refused_at_line(alloc, line),
        DocumentFault::NoMemory => Err(AllocError),
    }
}
