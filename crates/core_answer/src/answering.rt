//! The answer to a text.
ghost use Rattle.std.specs.Prelude.{◌≡◌, ◌≤◌, ℕ, List, Option, true, false, IfOk, length, replicate};
ghost use Rattle.text_limits.specs.declared.TheConstants.{SMALL_LIMITS};
ghost use Rattle.letters_and_lassos.specs.declared.kinds.Kind.{Kind as AKind};
ghost use Rattle.tlsf_expand.specs.FewSignals.{HasFewSignals};
ghost use Rattle.tlsf_expand.specs.FlatText.{spec_seen};
ghost use Rattle.flat_text.specs.FlatNames.{HasPlainNames};
ghost use Rattle.program_replies.specs.declared.replies.Status.TheVariants as ended;
ghost use Rattle.program_replies.specs.Lines.{refusal_line};
ghost use Rattle.program_replies.specs.Statuses.{status_number};
ghost use Rattle.text_ground.specs.Problems.{AreProblemsFor};
ghost use Rattle.text_ground.specs.Texts.{IsTextWith};
ghost use Rattle.tlsf_expand.specs.Standing.{SectionsStand};
ghost use Rattle.core_answer.specs.Core.{CoreAnswers, IsToldCore, Tells};
ghost use Rattle.core_answer.specs.Known.{IsTextIn};

use crate::lines::core_text;
use crate::shrinking::{kept, shrunk};
use input_output::Gate;
use letters_and_lassos::Kind;
use outcome_news::{Guarantees, Told, ToldReply};
use program_replies::{Reply, Status, refused};
use spec_faults::SpecCode;
use spec_problems::TextProblems;
use spec_problems::laws::problems_of_texts_are_determined;
use std::alloc::{AllocError, Global};
use std::sync::Wait;
use std::thread::Threads;
use synth_answer::answer_on;
use synth_engine::Settings;
use text_ground::{Problems, problems_or_refusal};
use tlsf_expand::Spec;
use unrealizable_core::laws::sections_of_texts_stand;

/// The most guarantees that are searched.
const MOST_GUARANTEES: usize = 64;

/// The answer of `core` to a text: the line of its first fault with status 1; the answer of `synth`, where its document has no
/// counter-machine; or, with status 20, guarantees that can't be met together, with what comes without each. A kind that is given stands
/// for the text's own.
///
/// It waits for the workers of the searches, each of which passes the gate at three moments of its turns. For a text with `count`
/// guarantees there are at most `count * (count + 1) / 2 + 1` searches.
pub fn core_answer<R: Threads + Wait + Sync, G: Gate + Sync>(
    rt: &R,
    alloc: Global,
    text: &[u8],
    kind: Option<Kind>,
    settings: Settings,
    gate: &G,
) -> Result<ToldReply, AllocError>
    ensures { IfOk result (λ r. CoreAnswers text.now kind settings r.reply.bytes.items (status_number r.reply.status)) }
{
    sections_of_texts_stand();
    match problems_or_refusal(alloc, text, kind, settings.counts())? {
        Problems::Of(found) => text_answer(rt, alloc, found, settings, gate),
        Problems::Refused(reply) => Ok(ToldReply {
            reply,
            told: Told::Refused,
        }),
    }
}

/// The reply to a text that has problems.
fn text_answer<R: Threads + Wait + Sync, G: Gate + Sync>(
    rt: &R,
    alloc: Global,
    found: TextProblems,
    settings: Settings,
    gate: &G,
) -> Result<ToldReply, AllocError>
    requires problems { AreProblemsFor settings.counts (spec_seen found.spec).expanded found.problems }
    requires stand { SectionsStand (spec_seen found.spec).formulas (spec_seen found.spec).expanded.sections }
    requires few { HasFewSignals SMALL_LIMITS (length found.spec.inputs.items) (length found.spec.outputs.items) found.spec.formulas }
    requires names { HasPlainNames (spec_seen found.spec).expanded }
    ensures { (text : List ℕ) (kind : Option AKind) → IsTextWith settings.counts text kind (spec_seen found.spec) found.problems
        → IfOk result (λ r. CoreAnswers text kind settings r.reply.bytes.items (status_number r.reply.status)) }
{
    sections_of_texts_stand();
    problems_of_texts_are_determined();
    let TextProblems { spec, problems } = found;
    let count = guarantee_count(&spec);
    if count > MOST_GUARANTEES {
        return too_many(alloc);
    }
    let whole = answer_on(rt, alloc, &spec, problems, settings, gate)?;
    if !whole.defeats {
        return Ok(ToldReply {
            reply: whole.reply,
            told: whole.told,
        });
    }
    core_of(
        rt,
        alloc,
        &spec,
        count as u32,
        whole.reply.bytes,
        settings,
        gate,
    )
}

/// The guarantees that can't be met together of a text whose document has a counter-machine.
fn core_of<R: Threads + Wait + Sync, G: Gate + Sync>(
    rt: &R,
    alloc: Global,
    spec: &Spec,
    count: u32,
    whole: Vec<u8>,
    settings: Settings,
    gate: &G,
) -> Result<ToldReply, AllocError>
    requires count { count ≡ length (spec_seen spec.now).expanded.sections.guarantee }
    requires most { count ≤ 64 }
    requires stand { SectionsStand (spec_seen spec.now).formulas (spec_seen spec.now).expanded.sections }
    requires few { HasFewSignals SMALL_LIMITS (length spec.now.inputs.items) (length spec.now.outputs.items) spec.now.formulas }
    requires names { HasPlainNames (spec_seen spec.now).expanded }
    ensures status { IfOk result (λ r. r.reply.status ≡ ended.Unrealizable) }
    ensures told { (text : List ℕ) (kind : Option AKind) → IsTextIn text kind (spec_seen spec.now) → Tells text (replicate count true) kind settings true whole.items
        → IfOk result (λ r. IsToldCore text kind settings count r.reply.bytes.items) }
{
    let core = shrunk(rt, alloc, spec, count, whole, settings, gate)?;
    let keep = kept(alloc, &core.shrink, count)?;
    let bytes = core_text(alloc, &keep, &core.document, &core.others)?;
    Ok(ToldReply {
        reply: Reply {
            bytes,
            status: Status::Unrealizable,
        },
        told: Told::Core(Guarantees::new(&keep)),
    })
}

/// The reply to a text with more guarantees than are searched.
fn too_many(alloc: Global) -> Result<ToldReply, AllocError>
    ensures { IfOk result (λ r. (r.reply.bytes.items ≡ refusal_line SpecCode.TooManyGuarantees 0) × (r.reply.status ≡ ended.Refused)) }
{
    Ok(ToldReply {
        reply: refused(alloc, SpecCode::TooManyGuarantees, 0)?,
        told: Told::Refused,
    })
}

fn guarantee_count(spec: &Spec) -> usize
    ensures { result ≡ length (spec_seen spec.now).expanded.sections.guarantee }
{
    spec.sections.guarantee.len()
}
