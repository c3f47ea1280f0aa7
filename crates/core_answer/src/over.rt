//! A text with some of its guarantees, answered.
ghost use Rattle.std.specs.Prelude.{◌≡◌, ◌≤◌, ℕ, List, Option, false, IfOk, length};
ghost use Rattle.text_limits.specs.declared.TheConstants.{SMALL_LIMITS};
ghost use Rattle.letters_and_lassos.specs.declared.kinds.Kind.{Kind as AKind};
ghost use Rattle.ltl_formula.specs.Nodes.{IsNodeIn};
ghost use Rattle.tlsf_expand.specs.FewSignals.{HasFewSignals};
ghost use Rattle.tlsf_expand.specs.FlatText.{spec_seen};
ghost use Rattle.flat_text.specs.FlatNames.{HasPlainNames};
ghost use Rattle.program_replies.specs.Statuses.{status_number};
ghost use Rattle.spec_problems.specs.OfText.{interface_of};
ghost use Rattle.tlsf_expand.specs.Standing.{SectionsStand};
ghost use Rattle.core_answer.specs.Core.{IsToldOver};
ghost use Rattle.core_answer.specs.Known.{IsTextIn};
ghost use Rattle.core_answer.specs.Over.{are_all};
ghost use Rattle.core_answer.specs.Reply.{IsReducedReply, IsRefusedReply, list_fault};

use input_output::Gate;
use ltl_formula::AddFault;
use outcome_news::Told;
use program_replies::refusal;
use spec_faults::{SpecCode, SpecFault};
use spec_problems::{Interface, problems_of};
use std::alloc::{AllocError, Global};
use std::sync::Wait;
use std::thread::Threads;
use synth_answer::{Answered, answer_on};
use synth_engine::Settings;
use tlsf_expand::Spec;
use unrealizable_core::{Reduced, whole_of};

/// What answers a text with these of its guarantees, which aren't all.
pub(crate) fn answer_over<R: Threads + Wait + Sync, G: Gate + Sync>(
    rt: &R,
    alloc: Global,
    spec: &Spec,
    keep: &[bool],
    settings: Settings,
    gate: &G,
) -> Result<Answered, AllocError>
    requires stand { SectionsStand (spec_seen spec.now).formulas (spec_seen spec.now).expanded.sections }
    requires each { length keep.now ≡ length (spec_seen spec.now).expanded.sections.guarantee }
    requires few { HasFewSignals SMALL_LIMITS (length spec.now.inputs.items) (length spec.now.outputs.items) spec.now.formulas }
    requires names { HasPlainNames (spec_seen spec.now).expanded }
    ensures { (text : List ℕ) (kind : Option AKind) → IsTextIn text kind (spec_seen spec.now) → are_all keep.now ≡ false
        → IfOk result (λ a. IsToldOver text keep.now kind settings a.reply.bytes.items (status_number a.reply.status) a.defeats) }
{
    match whole_of(alloc, &spec.formulas, &spec.sections, spec.strict, keep) {
        Ok(reduced) => reduced_answer(rt, alloc, spec, reduced, settings, gate),
        Err(fault) => refused_over(alloc, list_fault(fault)),
    }
}

/// What answers over the formula of the whole in its own list.
fn reduced_answer<R: Threads + Wait + Sync, G: Gate + Sync>(
    rt: &R,
    alloc: Global,
    spec: &Spec,
    reduced: Reduced,
    settings: Settings,
    gate: &G,
) -> Result<Answered, AllocError>
    requires stands { IsNodeIn reduced.formulas reduced.whole }
    requires few { HasFewSignals SMALL_LIMITS (length spec.now.inputs.items) (length spec.now.outputs.items) reduced.formulas }
    requires names { HasPlainNames (spec_seen spec.now).expanded }
    ensures { IfOk result (λ a. IsReducedReply (spec_seen spec.now).expanded reduced settings a.reply.bytes.items a.reply.status a.defeats) }
{
    let Reduced {
        mut formulas,
        whole,
    } = reduced;
    match problems_of(alloc, &mut formulas, whole, interface(spec, settings)) {
        Ok(problems) => answer_on(rt, alloc, spec, problems, settings, gate),
        Err(fault) => refused_over(alloc, fault),
    }
}

/// What the problems share with those of the text.
fn interface(spec: &Spec, settings: Settings) -> Interface
    requires inputs { length spec.now.inputs.items ≤ SMALL_LIMITS.signals }
    requires outputs { length spec.now.outputs.items ≤ SMALL_LIMITS.signals }
    ensures { result ≡ interface_of settings.counts (spec_seen spec.now).expanded }
{
    Interface {
        inputs: spec.inputs.len() as u32,
        outputs: spec.outputs.len() as u32,
        kind: spec.kind,
        counts: settings.counts(),
    }
}

/// The line of a refusal, which has no counter-machine.
fn refused_over(alloc: Global, fault: SpecFault) -> Result<Answered, AllocError>
    ensures { IfOk result (λ a. IsRefusedReply fault a.reply.bytes.items a.reply.status a.defeats) }
{
    Ok(Answered {
        reply: refusal(alloc, fault)?,
        defeats: false,
        told: Told::Refused,
    })
}

/// The refusal of a text whose guarantees that are kept find no room in a list.
fn list_fault(fault: AddFault) -> SpecFault
    ensures { result ≡ list_fault fault }
{
    match fault {
        AddFault::TooManyNodes => SpecFault::At {
            code: SpecCode::TooManyNodes,
            place: 0,
        },
        AddFault::NoMemory => SpecFault::NoMemory,
    }
}
