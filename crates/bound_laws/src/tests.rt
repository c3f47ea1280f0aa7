//! The laws at real answers: what a clause says of the answers that its helper makes is proved by the law, and which answers these are is seen.
ghost use Rattle.std.specs.Prelude.{◌≡◌, ◌<◌, ℕ, IfOk, IfSome};
ghost use Rattle.document_text.specs.Parts.{Document};
ghost use Rattle.document_text.specs.States.{States};
ghost use Rattle.circuit_laws.specs.Laws.{NoCircuitSatisfies};
ghost use Rattle.program_replies.specs.Statuses.{status_number};
ghost use Rattle.satisfaction.specs.Wanted.{Wanted as AWanted};
ghost use Rattle.solve_check.specs.Checked.{IsAcceptedAs};
ghost use Rattle.solve_check.specs.Laws.{LiesBetween};
ghost use Rattle.solved_text.specs.declared.documents.Verdict.TheVariants.{Realizable, Unrealizable};
ghost use Rattle.synth_answer.specs.Answer.{IsTold};
ghost use Rattle.synth_answer.specs.Numbers.{AskAlike, told_number};
ghost use Rattle.text_ground.specs.Ground.{IsWantedBy};

use crate::laws::answers_agree;
use document_text::Verdict;
use input_output::OpenGate;
use letters_and_lassos::{Kind, Side};
use machine_model::Counts;
use solve_check::{Acceptance, Checked, check_solved};
use solve_ground::solve_text;
use std::alloc::{AllocError, Global};
use std::sync::Wait;
use std::test::Fail;
use std::thread::Threads;
use synth_answer::laws::{no_smaller_circuits, verdicts_are_determined};
use synth_answer::{TextAnswer, told_answer};
use synth_engine::Settings;

/// The output changes at each step, for which two states are needed.
const TOGGLE: &[u8] =
    b"INFO { TITLE: \"toggle\" DESCRIPTION: \"toggle\" SEMANTICS: Mealy TARGET: Mealy }\n\
    MAIN { INPUTS { r; } OUTPUTS { g; } GUARANTEES { G (g <-> X !g); } }\n";

/// What `solve` prints for it: a circuit of two states, and that one state is too few.
const SOLVED: &[u8] =
    b"aag 2 1 1 1 0\n2\n4 5\n4\ni0 r\no0 g\nc\nboundsyn 6\nverdict realizable 2\nkind Mealy\nrefuted 1\n\
    log 1 all 9 16 2\n4 -3 0 1 2 3 13 14 4 8 0\n4 0 1 2 3 13 14 17 6 10 0\nannotation 4 3\nstate 0 0 17\n\
    state 1 1 1\nstate 2 1 0\n0 0 0\n1 1 1\n1 0 0\n0 2 1\nend\n";

/// How `synth` is asked.
#[derive(Clone, Copy)]
struct Asked {
    kind: Option<Kind>,
    settings: Settings,
}

/// What `synth` answers to a text. No circuit with fewer states than it tells of satisfies.
fn told<R: Threads + Wait + Sync>(
    rt: &R,
    alloc: Global,
    text: &[u8],
    asked: Asked,
) -> Result<TextAnswer, AllocError>
    ensures told { IfOk result (λ t. IsTold text.now asked.kind asked.settings t.reply.bytes.items (status_number t.reply.status) t.verdict) }
    ensures smallest { IfOk result (λ t. (d : Document) (x : AWanted) (k : ℕ) → status_number t.reply.status ≡ 10 → States t.reply.bytes.items d
        → IsWantedBy text.now asked.kind x → k < told_number d.verdict → NoCircuitSatisfies x k) }
{
    no_smaller_circuits();
    told_answer(rt, alloc, text, asked.kind, asked.settings, &OpenGate)
}

/// What it answers when it is asked in two ways.
fn both_told<R: Threads + Wait + Sync>(
    rt: &R,
    alloc: Global,
    text: &[u8],
    one: Asked,
    other: Asked,
) -> Result<(TextAnswer, TextAnswer), AllocError>
    ensures numbers { IfOk result (λ t. (d e : Document) → AskAlike text.now one.kind other.kind → status_number t.0.reply.status ≡ 10
        → status_number t.1.reply.status ≡ 10 → States t.0.reply.bytes.items d → States t.1.reply.bytes.items e
        → told_number d.verdict ≡ told_number e.verdict) }
    ensures never_both { IfOk result (λ t. AskAlike text.now one.kind other.kind → status_number t.0.reply.status ≡ 10
        → status_number t.1.reply.status ≡ 20 → ⊥) }
{
    verdicts_are_determined();
    let first = told(rt, alloc, text, one)?;
    let second = told(rt, alloc, text, other)?;
    Ok((first, second))
}

/// What is told of a document of version 6, where it is accepted.
fn accepted(
    alloc: Global,
    text: &[u8],
    kind: Option<Kind>,
    document: &[u8],
) -> Result<Option<Acceptance>, AllocError>
    ensures { IfOk result (λ found. IfSome found (IsAcceptedAs text.now kind document.now)) }
{
    let Ok(known) = solve_text(alloc, text, kind) else {
        return Ok(None);
    };
    match check_solved(alloc, &known, document)? {
        Checked::Accepted(acceptance) => Ok(Some(acceptance)),
        Checked::BadLine(_) => Ok(None),
    }
}

/// What `synth` answers to a text beside what is told of such a document.
fn told_beside<R: Threads + Wait + Sync>(
    rt: &R,
    alloc: Global,
    text: &[u8],
    asked: Asked,
    document: &[u8],
) -> Result<Option<(TextAnswer, Acceptance)>, AllocError>
    ensures between { IfOk result (λ found. IfSome found (λ b. (d : Document) (n : ℕ) → status_number b.0.reply.status ≡ 10
        → States b.0.reply.bytes.items d → b.1.verdict ≡ Realizable n → LiesBetween b.1.refuted (told_number d.verdict) n)) }
    ensures apart { IfOk result (λ found. IfSome found (λ b. (n : ℕ) → status_number b.0.reply.status ≡ 10 → b.1.verdict ≡ Unrealizable n → ⊥)) }
{
    answers_agree();
    let Some(acceptance) = accepted(alloc, text, asked.kind, document)? else {
        return Ok(None);
    };
    let answer = told(rt, alloc, text, asked)?;
    Ok(Some((answer, acceptance)))
}

/// The verdict of `synth`, and how many sizes the document refutes.
fn said(found: Option<(TextAnswer, Acceptance)>) -> (Option<Verdict>, usize) {
    match found {
        Some((answer, acceptance)) => (answer.verdict, acceptance.refuted),
        None => (None, 0),
    }
}

/// The system's least machine has two states.
fn two_states() -> Verdict {
    Verdict::Machine {
        side: Side::System,
        states: 2,
        least: true,
    }
}

/// One is asked with the text's own kind and few sizes, the other one with a given kind and other base clauses.
fn two_ways() -> (Asked, Asked) {
    let own = Asked {
        kind: None,
        settings: Settings::new(2, None, 0, Counts::Whole),
    };
    let given = Asked {
        kind: Some(Kind::Mealy),
        settings: Settings::new(4, Some(9), 0, Counts::Local),
    };
    (own, given)
}

#[test]
fn numbers_are_determined(rt: HostRuntime) -> Result<(), Fail> {
    let (own, given) = two_ways();
    let (one, other) = both_told(&rt, rt.alloc(), TOGGLE, own, given)?;
    assert_eq!(rt; one.verdict, Some(two_states()));
    assert_eq!(rt; other.verdict, Some(two_states()));
    Ok(())
}

#[test]
fn synth_and_solve_agree(rt: HostRuntime) -> Result<(), Fail> {
    let (own, _given) = two_ways();
    let found = told_beside(&rt, rt.alloc(), TOGGLE, own, SOLVED)?;
    assert_eq!(rt; said(found), (Some(two_states()), 1));
    Ok(())
}
