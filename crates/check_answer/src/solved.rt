//! The answer to a certificate of version 6.
ghost use Rattle.std.specs.Prelude.{◌≡◌, ℕ, List, Option, IfOk};
ghost use Rattle.letters_and_lassos.specs.declared.kinds.Kind.{Kind as AKind};
ghost use Rattle.program_replies.specs.Statuses.{status_number};
ghost use Rattle.solve_ground.specs.SolveText.{IsSolveText};
ghost use Rattle.solved_text.specs.Reading.{IsSixth};
ghost use Rattle.solve_check.specs.Checked.{IsReady};
ghost use Rattle.solve_check.specs.Line.{accepted_line as line_of};
ghost use Rattle.check_answer.specs.Answer.{CheckAnswers, IsTakenBySolve, SolvedAnswers};
ghost use Rattle.check_answer.specs.Reply.{IsHeaderOf};

use program_replies::{Reply, Status, refusal, refused_at_line};
use solve_check::{Acceptance, Checked, accepted_line, asked_text, check_solved};
use solve_ground::SolveText;
use solve_ground::laws::solve_texts_are_determined;
use solved_text::{Header, read_solved};
use std::alloc::{AllocError, Global};

/// The answer to a text that `solve` takes, and to a certificate of version 6, which is tested against the text as it asks
/// for it.
pub(crate) fn solved_answer(
    alloc: Global,
    text: &[u8],
    certificate: &[u8],
) -> Result<Reply, AllocError>
    ensures { IsTakenBySolve text.now → IsSixth certificate.now
        → IfOk result (λ r. CheckAnswers text.now certificate.now r.bytes.items (status_number r.status)) }
{
    solve_texts_are_determined();
    let header = header_of(alloc, certificate)?;
    match asked_text(alloc, text, header) {
        Ok(known) => tested(alloc, &known, certificate),
        Err(fault) => refusal(alloc, fault),
    }
}

/// What the lines of such a certificate before its logs state.
fn header_of(alloc: Global, certificate: &[u8]) -> Result<Header, AllocError>
    ensures { IfOk result (IsHeaderOf certificate.now) }
{
    let lines = read_solved(alloc, certificate)?;
    Ok(lines.header)
}

/// The answer to a certificate that is tested against this text.
fn tested(alloc: Global, known: &SolveText, certificate: &[u8]) -> Result<Reply, AllocError>
    requires { IsReady known.now }
    ensures { (text : List ℕ) (given : Option AKind) → IsSolveText text given known.now
        → IfOk result (λ r. SolvedAnswers text given known.now certificate.now r.bytes.items (status_number r.status)) }
{
    match check_solved(alloc, known, certificate)? {
        Checked::Accepted(told) => told_reply(alloc, told),
        Checked::BadLine(line) => refused_at_line(alloc, line),
    }
}

/// The reply that tells of a document that holds.
fn told_reply(alloc: Global, told: Acceptance) -> Result<Reply, AllocError>
    ensures { IfOk result (λ r. (r.bytes.items ≡ line_of told) × (r.status ≡ Status.Done)) }
{
    Ok(Reply {
        bytes: accepted_line(alloc, told)?,
        status: Status::Done,
    })
}
