//! The reply to `verify`.
ghost use Rattle.std.specs.Prelude.{◌≡◌, ◌≢◌, ℕ, List, IfOk};
ghost use Rattle.letters_and_lassos.specs.declared.kinds.Side.TheVariants.{System};
ghost use Rattle.program_replies.specs.Statuses.{status_number};
ghost use Rattle.program_words.specs.Settings.{verify};
ghost use Rattle.solve_ground.specs.SolveText.{IsSolveFault};
ghost use Rattle.verify_answer.specs.Answer.{CircuitAnswers};
ghost use Rattle.verify_answer.specs.Reply.{IsReadyFor, IsTestable};
ghost use Rattle.boundsyn_top.specs.Faults.{HasNone, IsSynthFault};
ghost use Rattle.boundsyn_top.specs.Run.{IsOutputOf};
ghost use Rattle.boundsyn_top.specs.Steps.{step_of};
ghost use Rattle.boundsyn_top.specs.Takes.{TakesFile};
ghost use Rattle.boundsyn_top.specs.Unread.{RepliesByFile, TellsUnread};

use crate::files::{Taken, cannot_read, take_text, take_whole};
use crate::output::{Output, whole_output};
use input_output::Shelf;
use letters_and_lassos::{Kind, Side};
use program_replies::Reply;
use solve_ground::SolveText;
use spec_problems::laws::problems_of_texts_are_determined;
use std::alloc::{AllocError, Global};
use text_ground::Problems;
use verify_answer::{TextForVerify, problems_for_verify, text_for_verify, verify_answer};

/// Verifies a circuit that plays this side against a text. The circuit is taken only where the text has no fault as `solve` takes it.
pub(crate) fn verify_circuit<H: Shelf>(
    alloc: Global,
    shelf: &mut H,
    side: Side,
    kind: Option<Kind>,
    spec: &str,
    circuit: &str,
) -> Result<Output, AllocError>
    ensures output { IfOk result (IsOutputOf (step_of H.files H.faults shelf.old shelf.new) (verify side kind spec.now circuit.now)) }
    ensures files { H.files shelf.new ≡ H.files shelf.old }
    ensures other_files { (name : List ℕ) → ¬ TakesFile (H.files shelf.old) (verify side kind spec.now circuit.now) name → H.faults shelf.new name ≡ H.faults shelf.old name }
{
    match take_text(alloc, shelf, spec)? {
        Taken::Whole(text) => whole_output(verify_by(alloc, shelf, side, &text, kind, circuit)),
        Taken::Refused(reply) => Ok(Output::Whole(reply)),
    }
}

/// Takes a circuit, and verifies it against a text, unless the text has a fault as `solve` takes it.
fn verify_by<H: Shelf>(
    alloc: Global,
    shelf: &mut H,
    side: Side,
    text: &[u8],
    kind: Option<Kind>,
    circuit: &str,
) -> Result<Reply, AllocError>
    ensures reply { IfOk result (λ r. RepliesByFile (step_of H.files H.faults shelf.old shelf.new) circuit.now
        (HasNone (IsSolveFault text.now kind)) (IsSynthFault side text.now kind) (λ lines. CircuitAnswers side text.now kind lines r.bytes.items (status_number r.status)) r.bytes.items (status_number r.status)) }
    ensures files { H.files shelf.new ≡ H.files shelf.old }
    ensures other_files { (name : List ℕ) → (HasNone (IsSolveFault text.now kind) → name ≢ circuit.now) → H.faults shelf.new name ≡ H.faults shelf.old name }
{
    let found = text_for_verify(alloc, side, text, kind)?;
    match found {
        TextForVerify::Taken(known) => verified(alloc, shelf, side, text, kind, &known, circuit),
        TextForVerify::Refused(reply) => Ok(reply),
    }
}

/// Takes a circuit, and verifies it against a text that is known so.
fn verified<H: Shelf>(
    alloc: Global,
    shelf: &mut H,
    side: Side,
    text: &[u8],
    kind: Option<Kind>,
    known: &SolveText,
    circuit: &str,
) -> Result<Reply, AllocError>
    requires { IsReadyFor known.now }
    ensures reply { IsTestable text.now kind known.now → HasNone (IsSolveFault text.now kind)
        → IfOk result (λ r. RepliesByFile (step_of H.files H.faults shelf.old shelf.new) circuit.now
        (HasNone (IsSolveFault text.now kind)) (IsSynthFault side text.now kind) (λ lines. CircuitAnswers side text.now kind lines r.bytes.items (status_number r.status)) r.bytes.items (status_number r.status)) }
    ensures files { H.files shelf.new ≡ H.files shelf.old }
    ensures other_files { (name : List ℕ) → name ≢ circuit.now → H.faults shelf.new name ≡ H.faults shelf.old name }
{
    match take_whole(alloc, shelf, circuit)? {
        Some(lines) => verify_answer(alloc, side, text, kind, known, &lines),
        None => unread_circuit(alloc, side, text, kind),
    }
}

/// The reply to a text where the circuit can't be read: the line of the fault that the text has as `synth` takes it, if it has one and the
/// circuit was to play the system.
fn unread_circuit(
    alloc: Global,
    side: Side,
    text: &[u8],
    kind: Option<Kind>,
) -> Result<Reply, AllocError>
    ensures { IfOk result (λ r. TellsUnread (IsSynthFault side text.now kind) r.bytes.items (status_number r.status)) }
{
    match side {
        Side::System => unread_system(alloc, text, kind),
        Side::Environment => cannot_read(alloc),
    }
}

/// The same where it was to play the system.
fn unread_system(alloc: Global, text: &[u8], kind: Option<Kind>) -> Result<Reply, AllocError>
    ensures { IfOk result (λ r. TellsUnread (IsSynthFault System text.now kind) r.bytes.items (status_number r.status)) }
{
    problems_of_texts_are_determined();
    match problems_for_verify(alloc, text, kind)? {
        Problems::Of(_problems) => cannot_read(alloc),
        Problems::Refused(reply) => Ok(reply),
    }
}
