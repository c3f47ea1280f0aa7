//! The reply to `check`.
ghost use Rattle.std.specs.Prelude.{◌≡◌, ◌≢◌, ℕ, List, Some, IfOk};
ghost use Rattle.check_answer.specs.Answer.{CheckAnswers, IsTakenBySolve};
ghost use Rattle.letters_and_lassos.specs.declared.kinds.Kind.TheVariants.{Mealy};
ghost use Rattle.program_replies.specs.Statuses.{status_number};
ghost use Rattle.program_words.specs.Settings.{check};
ghost use Rattle.spec_problems.specs.OfText.{IsFirstFault};
ghost use Rattle.boundsyn_top.specs.Faults.{TakesCertificates};
ghost use Rattle.boundsyn_top.specs.Run.{IsOutputOf};
ghost use Rattle.boundsyn_top.specs.Steps.{step_of};
ghost use Rattle.boundsyn_top.specs.Takes.{TakesFile};
ghost use Rattle.boundsyn_top.specs.Unread.{RepliesByFile, TellsUnread};

use crate::files::{Taken, cannot_read, take_parts, take_text};
use crate::output::{Output, whole_output};
use check_answer::{TextForCheck, check_answer, problems_for_check, text_for_check};
use input_output::Shelf;
use program_replies::Reply;
use spec_problems::laws::problems_of_texts_are_determined;
use std::alloc::{AllocError, Global};
use std::sync::Wait;
use std::thread::Threads;
use text_ground::Problems;

/// Checks a document against a text. The document is taken unless the text is refused whatever it is.
pub(crate) fn check_certificate<R, H>(
    rt: &R,
    alloc: Global,
    shelf: &mut H,
    spec: &str,
    certificate: &str,
) -> Result<Output, AllocError>
where
    R: Threads + Wait + Sync,
    H: Shelf,
    ensures output { IfOk result (IsOutputOf (step_of H.files H.faults shelf.old shelf.new) (check spec.now certificate.now)) }
    ensures files { H.files shelf.new ≡ H.files shelf.old }
    ensures other_files { (name : List ℕ) → ¬ TakesFile (H.files shelf.old) (check spec.now certificate.now) name → H.faults shelf.new name ≡ H.faults shelf.old name }
{
    match take_text(alloc, shelf, spec)? {
        Taken::Whole(text) => whole_output(check_by(rt, alloc, shelf, &text, certificate)),
        Taken::Refused(reply) => Ok(Output::Whole(reply)),
    }
}

/// Takes a document, and checks it against a text, unless the text is refused whatever the document is.
fn check_by<R, H>(
    rt: &R,
    alloc: Global,
    shelf: &mut H,
    text: &[u8],
    certificate: &str,
) -> Result<Reply, AllocError>
where
    R: Threads + Wait + Sync,
    H: Shelf,
    ensures reply { IfOk result (λ r. RepliesByFile (step_of H.files H.faults shelf.old shelf.new) certificate.now
        (TakesCertificates text.now) (IsFirstFault text.now (Some Mealy)) (λ document. CheckAnswers text.now document r.bytes.items (status_number r.status)) r.bytes.items (status_number r.status)) }
    ensures files { H.files shelf.new ≡ H.files shelf.old }
    ensures other_files { (name : List ℕ) → (TakesCertificates text.now → name ≢ certificate.now) → H.faults shelf.new name ≡ H.faults shelf.old name }
{
    match text_for_check(alloc, text)? {
        TextForCheck::Taken => checked(rt, alloc, shelf, text, certificate),
        TextForCheck::Refused(reply) => Ok(reply),
    }
}

/// Takes a document, and checks it against a text that `solve` takes.
fn checked<R, H>(
    rt: &R,
    alloc: Global,
    shelf: &mut H,
    text: &[u8],
    certificate: &str,
) -> Result<Reply, AllocError>
where
    R: Threads + Wait + Sync,
    H: Shelf,
    ensures reply { IsTakenBySolve text.now → TakesCertificates text.now
        → IfOk result (λ r. RepliesByFile (step_of H.files H.faults shelf.old shelf.new) certificate.now
        (TakesCertificates text.now) (IsFirstFault text.now (Some Mealy)) (λ document. CheckAnswers text.now document r.bytes.items (status_number r.status)) r.bytes.items (status_number r.status)) }
    ensures files { H.files shelf.new ≡ H.files shelf.old }
    ensures other_files { (name : List ℕ) → name ≢ certificate.now → H.faults shelf.new name ≡ H.faults shelf.old name }
{
    match take_parts(alloc, shelf, certificate)? {
        Some(document) => check_answer(rt, alloc, text, &document),
        None => unread_document(alloc, text),
    }
}

/// The reply to a text where the document can't be read: the line of the text's fault within the limits of the other commands, if it has one.
fn unread_document(alloc: Global, text: &[u8]) -> Result<Reply, AllocError>
    ensures { IfOk result (λ r. TellsUnread (IsFirstFault text.now (Some Mealy)) r.bytes.items (status_number r.status)) }
{
    problems_of_texts_are_determined();
    match problems_for_check(alloc, text)? {
        Problems::Of(_problems) => cannot_read(alloc),
        Problems::Refused(reply) => Ok(reply),
    }
}
