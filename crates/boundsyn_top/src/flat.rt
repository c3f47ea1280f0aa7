//! The replies to `expand` and `lasso`, which want the flat form of a text.
ghost use Rattle.std.specs.Prelude.{◌≡◌, ◌≢◌, ℕ, List, None, IfOk, length};
ghost use Rattle.text_limits.specs.declared.TheConstants.{SMALL_LIMITS};
ghost use Rattle.flat_answer.specs.Lasso.{LassoAnswers};
ghost use Rattle.ltl_formula.specs.Nodes.{IsNodeIn};
ghost use Rattle.tlsf_expand.specs.FewSignals.{HasFewSignals};
ghost use Rattle.flat_text.specs.FlatOf.{IsFlatFault, IsFlatOf};
ghost use Rattle.program_replies.specs.Statuses.{status_number};
ghost use Rattle.program_words.specs.Settings.{expand, lasso};
ghost use Rattle.tlsf_expand.specs.FlatText.{spec_seen};
ghost use Rattle.boundsyn_top.specs.Faults.{HasNone};
ghost use Rattle.boundsyn_top.specs.Output.{IsExpansion};
ghost use Rattle.boundsyn_top.specs.Run.{IsOutputOf};
ghost use Rattle.boundsyn_top.specs.Steps.{step_of};
ghost use Rattle.boundsyn_top.specs.Takes.{TakesFile};
ghost use Rattle.boundsyn_top.specs.Unread.{RepliesByFile};

use crate::files::{Taken, cannot_read, take_text, take_whole};
use crate::output::{Output, whole_output};
use flat_answer::{Expansion, expanded, lasso_answer};
use flat_text::laws::flat_texts_have_no_fault;
use input_output::Shelf;
use program_replies::Reply;
use std::alloc::{AllocError, Global};
use tlsf_expand::Spec;

/// The flat form of a text.
pub(crate) fn expand_spec<H: Shelf>(
    alloc: Global,
    shelf: &mut H,
    spec: &str,
) -> Result<Output, AllocError>
    ensures output { IfOk result (IsOutputOf (step_of H.files H.faults shelf.old shelf.new) (expand spec.now)) }
    ensures files { H.files shelf.new ≡ H.files shelf.old }
    ensures other_files { (name : List ℕ) → name ≢ spec.now → H.faults shelf.new name ≡ H.faults shelf.old name }
{
    match take_text(alloc, shelf, spec)? {
        Taken::Whole(text) => flat_output(alloc, &text),
        Taken::Refused(reply) => Ok(Output::Whole(reply)),
    }
}

fn flat_output(alloc: Global, text: &[u8]) -> Result<Output, AllocError>
    ensures { IfOk result (IsExpansion text.now) }
{
    match expanded(alloc, text)? {
        Expansion::Flat(spec) => Ok(Output::Flat(spec)),
        Expansion::Refused(reply) => Ok(Output::Whole(reply)),
    }
}

/// Whether a text holds on a lasso. The lasso's file is taken only where the text has no fault.
pub(crate) fn tell_truth<H: Shelf>(
    alloc: Global,
    shelf: &mut H,
    spec: &str,
    word: &str,
) -> Result<Output, AllocError>
    ensures output { IfOk result (IsOutputOf (step_of H.files H.faults shelf.old shelf.new) (lasso spec.now word.now)) }
    ensures files { H.files shelf.new ≡ H.files shelf.old }
    ensures other_files { (name : List ℕ) → ¬ TakesFile (H.files shelf.old) (lasso spec.now word.now) name → H.faults shelf.new name ≡ H.faults shelf.old name }
{
    match take_text(alloc, shelf, spec)? {
        Taken::Whole(text) => whole_output(tell_by(alloc, shelf, &text, word)),
        Taken::Refused(reply) => Ok(Output::Whole(reply)),
    }
}

/// Takes the file of a lasso, and tells whether a text holds on it, unless the text has a fault.
fn tell_by<H: Shelf>(
    alloc: Global,
    shelf: &mut H,
    text: &[u8],
    word: &str,
) -> Result<Reply, AllocError>
    ensures reply { IfOk result (λ r. RepliesByFile (step_of H.files H.faults shelf.old shelf.new) word.now
        (HasNone (IsFlatFault SMALL_LIMITS text.now None)) (λ code place. ⊥) (λ lines. LassoAnswers text.now lines r.bytes.items (status_number r.status)) r.bytes.items (status_number r.status)) }
    ensures files { H.files shelf.new ≡ H.files shelf.old }
    ensures other_files { (name : List ℕ) → (HasNone (IsFlatFault SMALL_LIMITS text.now None) → name ≢ word.now) → H.faults shelf.new name ≡ H.faults shelf.old name }
{
    flat_texts_have_no_fault();
    match expanded(alloc, text)? {
        Expansion::Flat(flat) => told(alloc, shelf, &flat, word),
        Expansion::Refused(reply) => Ok(reply),
    }
}

/// Takes the file of a lasso, and tells whether a flat text holds on it.
fn told<H: Shelf>(
    alloc: Global,
    shelf: &mut H,
    flat: &Spec,
    word: &str,
) -> Result<Reply, AllocError>
    requires few { HasFewSignals SMALL_LIMITS (length flat.now.inputs.items) (length flat.now.outputs.items) flat.now.formulas }
    requires stands { IsNodeIn flat.now.formulas flat.now.whole }
    ensures reply { (text : List ℕ) → IsFlatOf SMALL_LIMITS text None (spec_seen flat.now) → HasNone (IsFlatFault SMALL_LIMITS text None)
        → IfOk result (λ r. RepliesByFile (step_of H.files H.faults shelf.old shelf.new) word.now
        (HasNone (IsFlatFault SMALL_LIMITS text None)) (λ code place. ⊥) (λ lines. LassoAnswers text lines r.bytes.items (status_number r.status)) r.bytes.items (status_number r.status)) }
    ensures files { H.files shelf.new ≡ H.files shelf.old }
    ensures other_files { (name : List ℕ) → name ≢ word.now → H.faults shelf.new name ≡ H.faults shelf.old name }
{
    match take_whole(alloc, shelf, word)? {
        Some(lines) => lasso_answer(alloc, flat, &lines),
        None => cannot_read(alloc),
    }
}
