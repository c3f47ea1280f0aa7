//! The answers to a text and a circuit's file.
ghost use Rattle.std.specs.Prelude.{ℕ, List, Option, IfOk};
ghost use Rattle.letters_and_lassos.specs.declared.kinds.Kind.{Kind};
ghost use Rattle.program_replies.specs.Statuses.{status_number};
ghost use Rattle.solve_ground.specs.SolveText.{IsSolveText};
ghost use Rattle.circuit_check.specs.Forms.{NamesStates};
ghost use Rattle.verify_answer.specs.Answer.{CircuitAnswers, EnvironmentAnswers, VerifyAnswers};
ghost use Rattle.verify_answer.specs.Reply.{IsReadyFor};

use crate::listed::listed_answer;
use crate::named::tested;
use crate::texts::problems_for_verify;
use circuit_check::names_states;
use letters_and_lassos::{Kind, Side};
use program_replies::Reply;
use solve_ground::SolveText;
use std::alloc::{AllocError, Global};
use text_ground::Problems;

/// The answer to a text that is known so, of the given kind in place of its own if one is given, and to the file of a circuit that plays this side: what is verified with status 0, where its
/// annotation is valid for its circuit and the text, or the line of its first bad line with status 40. Where the circuit plays the system
/// and its annotation names no states, a first fault that the text has within the limits of the other commands is told, with status 1.
///
/// It is linear in the bytes, and costs a step of the circuit for each pair of the annotation and each letter that is read. The text's
/// automata are built only where the annotation names no states.
pub fn verify_answer(
    alloc: Global,
    side: Side,
    text: &[u8],
    given: Option<Kind>,
    known: &SolveText,
    circuit: &[u8],
) -> Result<Reply, AllocError>
    requires { IsReadyFor known.now }
    ensures { IsSolveText text.now given known.now → IfOk result (λ r. CircuitAnswers side text.now given circuit.now r.bytes.items (status_number r.status)) }
{
    match side {
        Side::System => system_answer(alloc, text, given, known, circuit),
        Side::Environment => environment_answer(alloc, known, circuit),
    }
}

/// The answer to the file of a circuit that plays the system.
fn system_answer(
    alloc: Global,
    text: &[u8],
    given: Option<Kind>,
    known: &SolveText,
    circuit: &[u8],
) -> Result<Reply, AllocError>
    requires { IsReadyFor known.now }
    ensures { IsSolveText text.now given known.now → IfOk result (λ r. VerifyAnswers text.now given circuit.now r.bytes.items (status_number r.status)) }
{
    let names = names_states(alloc, circuit)?;
    if names {
        tested(alloc, known, Side::System, circuit)
    } else {
        answer_by_problems(alloc, text, given, circuit)
    }
}

/// The same for a file whose annotation names no states.
fn answer_by_problems(
    alloc: Global,
    text: &[u8],
    given: Option<Kind>,
    circuit: &[u8],
) -> Result<Reply, AllocError>
    ensures { (NamesStates circuit.now → ⊥) → IfOk result (λ r. VerifyAnswers text.now given circuit.now r.bytes.items (status_number r.status)) }
{
    match problems_for_verify(alloc, text, given)? {
        Problems::Of(found) => listed_answer(alloc, &found, circuit),
        Problems::Refused(reply) => Ok(reply),
    }
}

/// The answer to the file of a circuit that plays the environment.
fn environment_answer(alloc: Global, known: &SolveText, circuit: &[u8]) -> Result<Reply, AllocError>
    requires { IsReadyFor known.now }
    ensures { (text : List ℕ) (given : Option Kind) → IsSolveText text given known.now → IfOk result (λ r. EnvironmentAnswers text given circuit.now r.bytes.items (status_number r.status)) }
{
    tested(alloc, known, Side::Environment, circuit)
}
