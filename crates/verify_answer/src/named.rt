//! The answer to a file whose annotation names its states.
ghost use Rattle.std.specs.Prelude.{◌≡◌, ◌++◌, ℕ, List, Option, IfOk, OnOk};
ghost use Rattle.letters_and_lassos.specs.declared.kinds.Kind.{Kind};
ghost use Rattle.program_replies.specs.Statuses.{status_number};
ghost use Rattle.solve_ground.specs.SolveText.{IsSolveText};
ghost use Rattle.circuit_check.specs.Duty.{owed_by};
ghost use Rattle.verify_answer.specs.Answer.{TestAnswers, conversion_words, owed_to, side_words as words_of_side, tested_line};
ghost use Rattle.verify_answer.specs.Reply.{IsReadyFor};

use circuit_check::{Duty, first_bad_line};
use circuit_laws::laws::losing_circuits_defeat;
use circuit_names::TextNames;
use letters_and_lassos::{Kind, Side};
use program_replies::{Reply, Status, refused_at_line};
use solve_ground::SolveText;
use std::alloc::{AllocError, Global};

/// The answer to a text that is known so, and to the file of a circuit that plays this side.
pub(crate) fn tested(
    alloc: Global,
    known: &SolveText,
    side: Side,
    circuit: &[u8],
) -> Result<Reply, AllocError>
    requires { IsReadyFor known.now }
    ensures { (text : List ℕ) (given : Option Kind) → IsSolveText text given known.now → IfOk result (λ r. TestAnswers side text given circuit.now known.now r.bytes.items (status_number r.status)) }
{
    losing_circuits_defeat();
    match first_bad_line(alloc, duty_of(known, side), circuit)? {
        None => verified(alloc, side, known.kind, known.semantics),
        Some(line) => refused_at_line(alloc, line),
    }
}

/// What a circuit that plays this side owes to a text.
fn duty_of(known: &SolveText, side: Side) -> Duty<'_>
    ensures { owed_by result ≡ owed_to known.now side }
{
    match side {
        Side::System => Duty {
            names: TextNames {
                inputs: &known.inputs,
                outputs: &known.outputs,
            },
            side: Side::System,
            kind: known.kind,
            formulas: &known.formulas,
            form: known.negated,
        },
        Side::Environment => Duty {
            names: TextNames {
                inputs: &known.outputs,
                outputs: &known.inputs,
            },
            side: Side::Environment,
            kind: known.kind.other(),
            formulas: &known.formulas,
            form: known.normal,
        },
    }
}

/// The reply to a circuit that is verified.
fn verified(
    alloc: Global,
    side: Side,
    kind: Kind,
    semantics: Option<Kind>,
) -> Result<Reply, AllocError>
    ensures { IfOk result (λ r. (r.bytes.items ≡ tested_line side kind semantics) × (r.status ≡ Status.Done)) }
{
    let mut bytes = Vec::new(alloc);
    bytes.extend_from_slice(side_words(side))?;
    bytes.extend_from_slice(kind.word().as_bytes())?;
    push_conversion(&mut bytes, semantics)?;
    bytes.extend_from_slice(b"\n")?;
    Ok(Reply {
        bytes,
        status: Status::Done,
    })
}

fn side_words(side: Side) -> &'static [u8]
    ensures { result.now ≡ words_of_side side }
{
    match side {
        Side::System => b"verified as ",
        Side::Environment => b"verified environment as ",
    }
}

/// Appends the SEMANTICS of a converted text.
fn push_conversion(bytes: &mut Vec<u8>, semantics: Option<Kind>) -> Result<(), AllocError>
    ensures { OnOk result (bytes.new.items ≡ bytes.old.items ++ conversion_words semantics) }
{
    let Some(kind) = semantics else {
        return Ok(());
    };
    bytes.extend_from_slice(b" of ")?;
    bytes.extend_from_slice(kind.word().as_bytes())?;
    bytes.extend_from_slice(b" semantics")?;
    Ok(())
}
