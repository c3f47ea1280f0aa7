//! Guarantees of a text left out one at a time, until those that are kept can't be met together.
ghost use Rattle.std.specs.Prelude.{◌≡◌, ◌<◌, ◌≤◌, ℕ, List, [], None, Option, false, true, IfOk, IsSome, OnOk, length, map, replicate, slice_index_or};
ghost use Rattle.text_limits.specs.declared.TheConstants.{SMALL_LIMITS};
ghost use Rattle.letters_and_lassos.specs.declared.kinds.Kind.{Kind as AKind};
ghost use Rattle.tlsf_expand.specs.FewSignals.{HasFewSignals};
ghost use Rattle.tlsf_expand.specs.FlatText.{spec_seen};
ghost use Rattle.flat_text.specs.FlatNames.{HasPlainNames};
ghost use Rattle.unrealizable_core.specs.Laws.{kept_in};
ghost use Rattle.tlsf_expand.specs.Standing.{SectionsStand};
ghost use Rattle.unrealizable_core.specs.Shrink.{asked, told};
ghost use Rattle.core_answer.specs.Core.{Tells};
ghost use Rattle.core_answer.specs.Known.{IsShrunk, IsTextIn};
ghost use Rattle.core_answer.specs.Taken.{document_taken, others_taken};

use crate::over::answer_over;
use input_output::Gate;
use ltl_formula::FormulaId;
use std::alloc::{AllocError, Global};
use std::sync::Wait;
use std::thread::Threads;
use synth_answer::Answered;
use synth_engine::Settings;
use tlsf_expand::Spec;
use unrealizable_core::Shrink;

/// Guarantees of which a document shows that they can't be met together.
#[derive(Drop)]
pub(crate) struct Core {
    pub(crate) shrink: Shrink,
    /// It has a counter-machine over the guarantees that are kept.
    pub(crate) document: Vec<u8>,
    /// What comes without each guarantee that was found needed since the last drop, in order.
    pub(crate) others: Vec<Vec<u8>>,
}

impl Core {
    /// Takes what comes without the guarantee that is asked about: where it defeats, that guarantee is dropped.
    fn take(&mut self, answered: Answered) -> Result<(), AllocError>
        requires { IsSome (asked self.old.shrink) }
        ensures shrink { OnOk result (self.new.shrink ≡ told answered.defeats self.old.shrink) }
        ensures document { OnOk result (self.new.document.items ≡ document_taken answered.defeats answered.reply.bytes.items self.old.document.items) }
        ensures others { OnOk result (map (λ o. o.items) self.new.others.items ≡ others_taken answered.defeats answered.reply.bytes.items (map (λ o. o.items) self.old.others.items)) }
    {
        let defeats = answered.defeats;
        note(
            &mut self.document,
            &mut self.others,
            answered.reply.bytes,
            defeats,
        )?;
        self.shrink.tell(defeats);
        Ok(())
    }
}

/// Notes one more document: one that defeats stands for fewer guarantees, of which nothing else is known.
fn note(
    document: &mut Vec<u8>,
    others: &mut Vec<Vec<u8>>,
    bytes: Vec<u8>,
    defeats: bool,
) -> Result<(), AllocError>
    ensures document { OnOk result (document.new.items ≡ document_taken defeats bytes.items document.old.items) }
    ensures others { OnOk result (map (λ o. o.items) others.new.items ≡ others_taken defeats bytes.items (map (λ o. o.items) others.old.items)) }
{
    if defeats {
        *document = bytes;
        others.clear();
        return Ok(());
    }
    others.push(bytes)?;
    Ok(())
}

/// Leaves out guarantees of a text whose whole document defeats, one at a time.
pub(crate) fn shrunk<R: Threads + Wait + Sync, G: Gate + Sync>(
    rt: &R,
    alloc: Global,
    spec: &Spec,
    count: u32,
    whole: Vec<u8>,
    settings: Settings,
    gate: &G,
) -> Result<Core, AllocError>
    requires stand { SectionsStand (spec_seen spec.now).formulas (spec_seen spec.now).expanded.sections }
    requires count { count ≡ length (spec_seen spec.now).expanded.sections.guarantee }
    requires most { count ≤ 64 }
    requires few { HasFewSignals SMALL_LIMITS (length spec.now.inputs.items) (length spec.now.outputs.items) spec.now.formulas }
    requires names { HasPlainNames (spec_seen spec.now).expanded }
    ensures length { IfOk result (λ core. length core.shrink ≡ count) }
    ensures none_open { IfOk result (λ core. asked core.shrink ≡ None) }
    ensures shrunk { (text : List ℕ) (kind : Option AKind) → IsTextIn text kind (spec_seen spec.now) → Tells text (replicate count true) kind settings true whole.items
        → IfOk result (λ core. IsShrunk text kind settings core.shrink core.document.items (map (λ o. o.items) core.others.items)) }
{
    let mut core = Core {
        shrink: Shrink::new(alloc, count)?,
        document: whole,
        others: Vec::new(alloc),
    };
    while let Some(number) = core.shrink.ask() {
        let mut keep = kept(alloc, &core.shrink, count)?;
        keep[number as usize - 1] = false;
        let answered = answer_over(rt, alloc, spec, &keep, settings, gate)?;
        core.take(answered)?;
    }
    Ok(core)
}

/// Which numbers are kept.
pub(crate) fn kept(alloc: Global, shrink: &Shrink, count: u32) -> Result<Vec<bool>, AllocError>
    requires count { length shrink.now ≡ count }
    requires most { count ≤ 64 }
    ensures { IfOk result (λ keep. keep.items ≡ kept_in shrink.now) }
{
    let mut keep = Vec::new(alloc);
    for place in 0..count {
        keep.push(is_kept(shrink, place))?;
    }
    Ok(keep)
}

/// Whether the number of this place is kept.
fn is_kept(shrink: &Shrink, place: u32) -> bool
    requires place { place < length shrink.now }
    requires most { place < 64 }
    ensures { result ≡ slice_index_or (kept_in shrink.now) place false }
{
    shrink.keeps(place + 1)
}
