//! The answer to a text, and to problems that stand on some ground.
ghost use Rattle.std.specs.Prelude.{◌≡◌, Bool, IfOk, List, Some};
ghost use Rattle.letters_and_lassos.specs.Word.{Word};
ghost use Rattle.ltl_formula.specs.declared.nodes.FormulaId.{FormulaId as Id};
ghost use Rattle.ltl_formula.specs.declared.nodes.Node.{Node};
ghost use Rattle.flat_text.specs.FlatNames.{HasPlainNames};
ghost use Rattle.program_replies.specs.Statuses.{status_number};
ghost use Rattle.tlsf_expand.specs.FlatText.{spec_seen};
ghost use Rattle.synth_answer.specs.Answer.{Answers, IsAnswerOn, IsTold, IsToldOn, is_environment, verdict_defeats};
ghost use Rattle.text_ground.specs.Ground.{AreGivenOn, ground_with};
ghost use Rattle.synth_answer.specs.Reply.{IsSearchedReply};
ghost use Rattle.text_ground.specs.Problems.{AreProblemsFor};

use crate::facts::laws_hold;
use crate::outcomes::{Written, reply_to};
use annotation_encode::laws::sizes_rise;
use document_text::Verdict;
use input_output::Gate;
use letters_and_lassos::{Kind, Side};
use outcome_news::{Told, ToldReply};
use program_replies::Reply;
use spec_problems::{SideProblems, TextProblems};
use std::alloc::{AllocError, Global};
use std::sync::Wait;
use std::thread::Threads;
use synth_engine::{Settings, search};
use text_ground::{Problems, automata_are_kept, problems_or_refusal};
use tlsf_expand::Spec;

/// A document with its status.
#[derive(Drop)]
pub struct Answered {
    pub reply: Reply,
    /// Whether the document has a machine of the environment.
    pub defeats: bool,
    pub told: Told,
}

/// The line of a refusal or a document, with its status.
#[derive(Drop)]
pub struct TextAnswer {
    pub reply: Reply,
    /// What the document says, if there is one.
    pub verdict: Option<Verdict>,
    pub told: Told,
}

/// The answer to a text: the line of its first fault with status 1, or a document of version 3 or 5, by what is counted,
/// with status 10, 11, 20 or 30. A kind that is given stands for the text's own.
///
/// It waits for the workers of the search, each of which passes the gate at three moments of its turns.
pub fn answer<R: Threads + Wait + Sync, G: Gate + Sync>(
    rt: &R,
    alloc: Global,
    text: &[u8],
    kind: Option<Kind>,
    settings: Settings,
    gate: &G,
) -> Result<ToldReply, AllocError>
    ensures { IfOk result (λ r. Answers text.now kind settings r.reply.bytes.items (status_number r.reply.status)) }
{
    let answer = told_answer(rt, alloc, text, kind, settings, gate)?;
    Ok(ToldReply {
        reply: answer.reply,
        told: answer.told,
    })
}

/// The same answer, with the verdict of its document. It waits as `answer` does.
pub fn told_answer<R: Threads + Wait + Sync, G: Gate + Sync>(
    rt: &R,
    alloc: Global,
    text: &[u8],
    kind: Option<Kind>,
    settings: Settings,
    gate: &G,
) -> Result<TextAnswer, AllocError>
    ensures { IfOk result (λ t. IsTold text.now kind settings t.reply.bytes.items (status_number t.reply.status) t.verdict) }
{
    match problems_or_refusal(alloc, text, kind, settings.counts())? {
        Problems::Of(found) => document(rt, alloc, found, settings, gate),
        Problems::Refused(reply) => Ok(TextAnswer {
            reply,
            verdict: None,
            told: Told::Refused,
        }),
    }
}

/// A document for problems over the settings' base clauses that stand on some ground, whose names and kind are those of a flat text, with
/// status 10, 11, 20 or 30. It waits as `answer` does.
pub fn answer_on<R: Threads + Wait + Sync, G: Gate + Sync>(
    rt: &R,
    alloc: Global,
    spec: &Spec,
    problems: SideProblems,
    settings: Settings,
    gate: &G,
) -> Result<Answered, AllocError>
    requires problems { AreProblemsFor settings.counts (spec_seen spec.now).expanded problems }
    requires names { HasPlainNames (spec_seen spec.now).expanded }
    ensures { (truth : Word → Bool) (nodes : List Node) (whole : Id) → AreGivenOn settings.counts (ground_with (spec_seen spec.now).expanded truth nodes whole) problems
        → IfOk result (λ a. IsAnswerOn (ground_with (spec_seen spec.now).expanded truth nodes whole) settings a.reply.bytes.items (status_number a.reply.status) a.defeats) }
{
    let written = document_on(rt, alloc, spec, problems, settings, gate)?;
    Ok(Answered {
        reply: written.reply,
        defeats: verdict_defeats(written.verdict),
        told: written.told,
    })
}

/// The document for a text.
fn document<R: Threads + Wait + Sync, G: Gate + Sync>(
    rt: &R,
    alloc: Global,
    found: TextProblems,
    settings: Settings,
    gate: &G,
) -> Result<TextAnswer, AllocError>
    requires problems { AreProblemsFor settings.counts (spec_seen found.spec).expanded found.problems }
    requires names { HasPlainNames (spec_seen found.spec).expanded }
    ensures { (truth : Word → Bool) (nodes : List Node) (whole : Id) → AreGivenOn settings.counts (ground_with (spec_seen found.spec).expanded truth nodes whole) found.problems
        → IfOk result (λ t. IsToldOn (ground_with (spec_seen found.spec).expanded truth nodes whole) settings t.reply.bytes.items (status_number t.reply.status) t.verdict) }
{
    let TextProblems { spec, problems } = found;
    let written = document_on(rt, alloc, &spec, problems, settings, gate)?;
    Ok(TextAnswer {
        reply: written.reply,
        verdict: Some(written.verdict),
        told: written.told,
    })
}

/// The document for problems that stand on some ground, and what it says.
fn document_on<R: Threads + Wait + Sync, G: Gate + Sync>(
    rt: &R,
    alloc: Global,
    spec: &Spec,
    problems: SideProblems,
    settings: Settings,
    gate: &G,
) -> Result<Written, AllocError>
    requires problems { AreProblemsFor settings.counts (spec_seen spec.now).expanded problems }
    requires names { HasPlainNames (spec_seen spec.now).expanded }
    ensures { (truth : Word → Bool) (nodes : List Node) (whole : Id) → AreGivenOn settings.counts (ground_with (spec_seen spec.now).expanded truth nodes whole) problems
        → IfOk result (λ r. IsToldOn (ground_with (spec_seen spec.now).expanded truth nodes whole) settings r.reply.bytes.items (status_number r.reply.status) (Some r.verdict)) }
{
    laws_hold();
    searched(rt, alloc, spec, problems, settings, gate)
}

/// The document for these problems, by the outcome of their search.
fn searched<R: Threads + Wait + Sync, G: Gate + Sync>(
    rt: &R,
    alloc: Global,
    spec: &Spec,
    problems: SideProblems,
    settings: Settings,
    gate: &G,
) -> Result<Written, AllocError>
    requires problems { AreProblemsFor settings.counts (spec_seen spec.now).expanded problems }
    ensures { IfOk result (λ r. IsSearchedReply (spec_seen spec.now).expanded problems settings r.reply.bytes.items r.reply.status r.verdict) }
{
    automata_are_kept(&problems);
    sizes_rise();
    let _max = settings.max();
    let SideProblems {
        system,
        environment,
    } = problems;
    let outcome = search(rt, alloc, system, environment, settings, gate)?;
    let answered = reply_to(alloc, spec, settings, outcome)?;
    Ok(answered)
}

/// Whether a document of this verdict has a machine of the environment.
fn verdict_defeats(verdict: Verdict) -> bool
    ensures { result ≡ verdict_defeats verdict }
{
    match verdict.machine() {
        Some(machine) => is_environment(machine.side),
        None => false,
    }
}

fn is_environment(side: Side) -> bool
    ensures { result ≡ is_environment side }
{
    match side {
        Side::System => false,
        Side::Environment => true,
    }
}
