//! The answer to a text and a certificate.
ghost use Rattle.std.specs.Prelude.{ℕ, List, Some, IfOk};
ghost use Rattle.letters_and_lassos.specs.declared.kinds.Kind.TheVariants.{Mealy};
ghost use Rattle.program_replies.specs.Refusals.{RefusedBy};
ghost use Rattle.program_replies.specs.Statuses.{status_number};
ghost use Rattle.solve_ground.specs.SolveText.{IsSolveFault};
ghost use Rattle.check_answer.specs.Answer.{CheckAnswers, IsTakenBySolve};
ghost use Rattle.check_answer.specs.Reply.{AreForCertificates, AreForCheck, IsFaultForSolve};

use crate::earlier::earlier_answer;
use crate::solved::solved_answer;
use letters_and_lassos::Kind;
use limit_laws::laws::small_texts_are_taken;
use machine_model::Counts;
use program_replies::{Reply, refusal};
use solve_ground::laws::solve_texts_are_determined;
use solve_ground::solve_text;
use solved_text::is_sixth;
use spec_problems::laws::problems_of_texts_are_determined;
use std::alloc::{AllocError, Global};
use std::thread::Threads;
use text_ground::{Problems, problems_or_refusal};

/// What is known of a text before a certificate is taken. Kinds of the text's own that differ are no fault here.
#[derive(Drop)]
pub enum TextForCheck {
    /// A certificate is taken, since `solve` takes the text. Whether the text has a fault within the limits of the other commands matters to
    /// certificates that aren't of version 6 alone.
    Taken,
    /// The reply to the text's first fault, whatever the certificate is.
    Refused(Reply),
}

/// Whether a certificate is taken, or the line of the text's first fault with status 1. No automaton is made of a text without a fault.
pub fn text_for_check(alloc: Global, text: &[u8]) -> Result<TextForCheck, AllocError>
    ensures { IfOk result (AreForCheck text.now) }
{
    match fault_for_solve(alloc, text)? {
        Some(_larger) => refused_for_check(alloc, text),
        None => Ok(TextForCheck::Taken),
    }
}

/// The same of a text that has a fault as `solve` takes it, so that it has one within the limits of the other commands.
fn refused_for_check(alloc: Global, text: &[u8]) -> Result<TextForCheck, AllocError>
    ensures { (larger : List ℕ) (status : ℕ) → RefusedBy (IsSolveFault text.now (Some Mealy)) larger status → IfOk result (AreForCheck text.now) }
{
    small_texts_are_taken();
    problems_of_texts_are_determined();
    match problems_for_check(alloc, text)? {
        Problems::Of(_found) => Ok(TextForCheck::Taken),
        Problems::Refused(reply) => Ok(TextForCheck::Refused(reply)),
    }
}

/// The problems of a text that certificates which aren't of version 6 are tested against, or the line of its first fault with status 1.
pub fn problems_for_check(alloc: Global, text: &[u8]) -> Result<Problems, AllocError>
    ensures { IfOk result (AreForCertificates text.now) }
{
    problems_or_refusal(alloc, text, Some(Kind::Mealy), Counts::Whole)
}

/// The reply to the first fault of a text as `solve` takes it, where it has one.
fn fault_for_solve(alloc: Global, text: &[u8]) -> Result<Option<Reply>, AllocError>
    ensures { IfOk result (IsFaultForSolve text.now) }
{
    solve_texts_are_determined();
    match solve_text(alloc, text, Some(Kind::Mealy)) {
        Ok(_known) => Ok(None),
        Err(fault) => Ok(Some(refusal(alloc, fault)?)),
    }
}

/// The answer to a text that `solve` takes and to a certificate: the line of the document that the certificate states with status 0,
/// where it holds for the text, or the line of its first bad line with status 40; or, where it isn't of version 6, the line of the text's
/// first fault.
///
/// The automata of both sides are made for certificates that aren't of version 6 alone. The entries of a log are tested in pieces on several
/// threads.
pub fn check_answer<R: Threads + Sync>(
    rt: &R,
    alloc: Global,
    text: &[u8],
    certificate: &[u8],
) -> Result<Reply, AllocError>
    ensures { IsTakenBySolve text.now → IfOk result (λ r. CheckAnswers text.now certificate.now r.bytes.items (status_number r.status)) }
{
    let sixth = is_sixth(alloc, certificate)?;
    if sixth {
        return solved_answer(alloc, text, certificate);
    }
    earlier_answer(rt, alloc, text, certificate)
}
