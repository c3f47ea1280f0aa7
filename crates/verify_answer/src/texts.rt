//! A text that is read before a circuit is taken.
ghost use Rattle.std.specs.Prelude.{ℕ, List, IfOk};
ghost use Rattle.program_replies.specs.Refusals.{RefusedBy};
ghost use Rattle.program_replies.specs.Statuses.{status_number};
ghost use Rattle.solve_ground.specs.SolveText.{IsSolveFault};
ghost use Rattle.verify_answer.specs.Reply.{AreForVerify, IsRefusedAnyway, IsRefusedFor, IsSolveRefusal, IsTextFor};

use letters_and_lassos::{Kind, Side};
use limit_laws::laws::small_texts_are_taken;
use machine_model::Counts;
use program_replies::{Reply, refusal};
use solve_ground::laws::solve_texts_are_determined;
use solve_ground::{SolveText, solve_text};
use spec_faults::SpecFault;
use spec_problems::laws::problems_of_texts_are_determined;
use std::alloc::{AllocError, Global};
use text_ground::{Problems, problems_or_refusal};

/// What is known of a text before a circuit is taken.
#[derive(Drop)]
pub enum TextForVerify {
    /// The text as `solve` takes it: a circuit is taken.
    Taken(SolveText),
    /// The reply to the text's first fault, whatever the circuit is.
    Refused(Reply),
}

/// A text for the test of circuits that play this side, of the given kind in place of its own if one is given, or the line of its first fault. Where a text has a fault as `solve` takes it, it
/// has one within the limits of the other commands too; for circuits that play the system that one is told, else the former.
pub fn text_for_verify(
    alloc: Global,
    side: Side,
    text: &[u8],
    given: Option<Kind>,
) -> Result<TextForVerify, AllocError>
    ensures { IfOk result (IsTextFor side text.now given) }
{
    solve_texts_are_determined();
    match solve_text(alloc, text, given) {
        Ok(known) => Ok(TextForVerify::Taken(known)),
        Err(fault) => Ok(TextForVerify::Refused(refused_text(alloc, side, text, given, fault)?)),
    }
}

/// The reply to a text that has this fault as `solve` takes it.
fn refused_text(
    alloc: Global,
    side: Side,
    text: &[u8],
    given: Option<Kind>,
    fault: SpecFault,
) -> Result<Reply, AllocError>
    requires { IsSolveRefusal text.now given fault }
    ensures { IfOk result (IsRefusedFor side text.now given) }
{
    match side {
        Side::System => first_refusal(alloc, text, given, fault),
        Side::Environment => own_refusal(alloc, text, given, fault),
    }
}

/// The reply to the first fault of such a text within the limits of the other commands.
fn first_refusal(
    alloc: Global,
    text: &[u8],
    given: Option<Kind>,
    fault: SpecFault,
) -> Result<Reply, AllocError>
    requires { IsSolveRefusal text.now given fault }
    ensures { IfOk result (IsRefusedAnyway text.now given) }
{
    small_texts_are_taken();
    problems_of_texts_are_determined();
    if let SpecFault::NoMemory = fault {
        return Err(AllocError);
    }
    match problems_for_verify(alloc, text, given)? {
        Problems::Refused(reply) => Ok(reply),
        Problems::Of(_) => unreachable!(),
    }
}

/// The reply to its fault as `solve` takes it.
fn own_refusal(
    alloc: Global,
    text: &[u8],
    given: Option<Kind>,
    fault: SpecFault,
) -> Result<Reply, AllocError>
    requires { IsSolveRefusal text.now given fault }
    ensures { IfOk result (λ r. RefusedBy (IsSolveFault text.now given) r.bytes.items (status_number r.status)) }
{
    refusal(alloc, fault)
}

/// The problems of a text that annotations over the system's automaton are tested against, of the given kind, or else
/// of the one that it names, or the line of its first fault.
pub fn problems_for_verify(
    alloc: Global,
    text: &[u8],
    given: Option<Kind>,
) -> Result<Problems, AllocError>
    ensures { IfOk result (AreForVerify text.now given) }
{
    problems_or_refusal(alloc, text, given, Counts::Whole)
}
