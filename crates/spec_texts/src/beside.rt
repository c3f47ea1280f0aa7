//! A text as it is taken, alone or beside a document.

ghost use Rattle.std.specs.Prelude.{IfOk};
ghost use Rattle.flat_lines.specs.FlatLines.{CanBeWritten};
ghost use Rattle.ltl_formula.specs.Nodes.{IsNodeIn};
ghost use Rattle.tlsf_expand.specs.FlatText.{spec_seen};

use crate::faults::TextFault;
use flat_answer::{Expansion, expanded};
use flat_lines::laws::expanded_can_be_written;
use flat_text::expand_text;
use kind_conversion::{Shift, shift_of};
use letters_and_lassos::Kind;
use machine_table::{ShowFault, Shown};
use program_replies::refused;
use spec_faults::SpecFault;
use std::alloc::{AllocError, Global};
use text_limits::LARGE_LIMITS;
use tlsf_expand::Spec;
use tlsf_reader::read;

const BY_SOLVE: &str = "`boundsyn solve` takes this text, `synth` doesn't";

const WITH_INPUTS: &str =
    "`boundsyn solve` takes this text, `synth` doesn't; its SEMANTICS is Moore and its TARGET Mealy, so X stands before each input";

const WITH_OUTPUTS: &str =
    "`boundsyn solve` takes this text, `synth` doesn't; its SEMANTICS is Mealy and its TARGET Moore, so X stands before each output";

/// A text that is taken.
#[derive(Drop)]
pub(crate) struct Taken {
    pub(crate) spec: Spec,
    /// Which of its signals are those of the next step.
    pub(crate) shift: Option<Shift>,
    /// What a reader should know of how it was taken.
    pub(crate) note: Option<&'static str>,
}

/// The kinds that a text names.
#[derive(Clone, Copy)]
struct Kinds {
    semantics: Kind,
    target: Kind,
}

/// A text as `expand` takes it, or where that refuses it as `solve` does, which has larger limits and takes two kinds. Beside a document of version 6 it
/// is taken for machines of its kind, as `solve` does, and beside one of another version as `expand` does.
pub(crate) fn take_text(
    alloc: Global,
    text: &[u8],
    beside: Option<&Shown>,
) -> Result<Taken, TextFault>
    ensures writable { IfOk result (λ taken. CanBeWritten (spec_seen taken.spec)) }
    ensures stands { IfOk result (λ taken. IsNodeIn taken.spec.formulas taken.spec.whole) }
{
    if let Some(Shown::Solved(document)) = beside {
        let shift = match document.semantics {
            Some(semantics) => shift_of(semantics, document.kind),
            None => None,
        };
        return taken_for(alloc, text, document.kind, shift, None);
    }
    match expanded(alloc, text)? {
        Expansion::Flat(spec) => Ok(Taken {
            spec,
            shift: None,
            note: None,
        }),
        Expansion::Refused(reply) => taken_by_solve(alloc, text, beside, reply.bytes),
    }
}

/// A text that `expand` refuses with this line, by its own kinds within the limits of `solve`. Where a document is beside it the text isn't
/// taken, since `synth` has written that.
fn taken_by_solve(
    alloc: Global,
    text: &[u8],
    beside: Option<&Shown>,
    refusal: Vec<u8>,
) -> Result<Taken, TextFault>
    ensures writable { IfOk result (λ taken. CanBeWritten (spec_seen taken.spec)) }
    ensures stands { IfOk result (λ taken. IsNodeIn taken.spec.formulas taken.spec.whole) }
{
    if let Some(Shown::Document(_)) = beside {
        return Err(TextFault::Refused(refusal));
    }
    let Some(kinds) = kinds_of(alloc, text)? else {
        return Err(TextFault::Refused(refusal));
    };
    let note = Some(kinds.note());
    taken_for(alloc, text, kinds.target, kinds.shift(), note)
}

/// The text for machines of a kind, within the limits of `solve`.
fn taken_for(
    alloc: Global,
    text: &[u8],
    kind: Kind,
    shift: Option<Shift>,
    note: Option<&'static str>,
) -> Result<Taken, TextFault>
    ensures writable { IfOk result (λ taken. CanBeWritten (spec_seen taken.spec)) }
    ensures stands { IfOk result (λ taken. IsNodeIn taken.spec.formulas taken.spec.whole) }
{
    let spec = flat_of_kind(alloc, text, kind)?;
    Ok(Taken { spec, shift, note })
}

fn flat_of_kind(alloc: Global, text: &[u8], kind: Kind) -> Result<Spec, TextFault>
    ensures writable { IfOk result (λ spec. CanBeWritten (spec_seen spec)) }
    ensures stands { IfOk result (λ spec. IsNodeIn spec.formulas spec.whole) }
{
    expanded_can_be_written();
    match expand_text(alloc, text, Some(kind), LARGE_LIMITS) {
        Ok(spec) => Ok(spec),
        Err(SpecFault::NoMemory) => Err(TextFault::NotShown(ShowFault::NoMemory)),
        Err(SpecFault::At { code, place }) => {
            Err(TextFault::RefusedBySolve(refused(alloc, code, place)?.bytes))
        }
    }
}

/// None where the text can't be read.
fn kinds_of(alloc: Global, text: &[u8]) -> Result<Option<Kinds>, AllocError> {
    match read(alloc, text) {
        Ok(tree) => Ok(Some(Kinds {
            semantics: tree.info.semantics,
            target: tree.info.target,
        })),
        Err(SpecFault::NoMemory) => Err(AllocError),
        Err(SpecFault::At { .. }) => Ok(None),
    }
}

impl Kinds {
    fn shift(self) -> Option<Shift> {
        shift_of(self.semantics, self.target)
    }

    fn note(self) -> &'static str {
        match (self.semantics, self.target) {
            (Kind::Moore, Kind::Mealy) => WITH_INPUTS,
            (Kind::Mealy, Kind::Moore) => WITH_OUTPUTS,
            _ => BY_SOLVE,
        }
    }
}

impl Taken {
    /// Whether a signal, by its number, is one of the next step. A letter has at most 32 signals.
    pub(crate) fn is_shifted(&self, signal: u32) -> bool {
        let inputs = self.spec.inputs.len();
        let inputs = if inputs < 64 { inputs as u32 } else { 64 };
        match self.shift {
            Some(shift) => shift.takes(inputs, signal),
            None => false,
        }
    }
}
