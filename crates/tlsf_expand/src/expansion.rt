//! A whole text, expanded.

ghost use Rattle.std.specs.Prelude.{◌≡◌, IfOk, length};
ghost use Rattle.tlsf_expand.specs.Expansion.{expanded, kind_of};
ghost use Rattle.tlsf_expand.specs.FewSignals.{HasFewSignals};
ghost use Rattle.tlsf_expand.specs.Results.{IsExpansion, KeepsMeaning};
ghost use Rattle.tlsf_syntax.specs.Seen.{text_seen};

use crate::sections::flat_sections;
use crate::signals::declared_signals;
use crate::spec::Spec;
use crate::whole::whole_formula;
use letters_and_lassos::Kind;
use ltl_formula::Formulas;
use spec_faults::{SpecCode, SpecFault, fault};
use std::alloc::Global;
use text_limits::Limits;
use tlsf_syntax::SpecTree;
use tlsf_values::Work;

/// A kind that is given stands for those of the text, which must else be one.
fn kind_of(kind: Option<Kind>, tree: &SpecTree) -> Option<Kind>
    ensures { result ≡ kind_of kind (text_seen tree.now) }
{
    match (kind, tree.info.semantics, tree.info.target) {
        (Some(kind), _, _) => Some(kind),
        (None, Kind::Mealy, Kind::Mealy) => Some(Kind::Mealy),
        (None, Kind::Moore, Kind::Moore) => Some(Kind::Moore),
        (None, Kind::Mealy, Kind::Moore) => None,
        (None, Kind::Moore, Kind::Mealy) => None,
    }
}

/// The flat sections of a text, with the formula of the whole, or its first fault of those that come after reading and before
/// normal forms, within these limits. A kind that is given stands for those that the text names.
pub fn expand(
    alloc: Global,
    tree: &SpecTree,
    kind: Option<Kind>,
    limits: Limits,
) -> Result<Spec, SpecFault>
    ensures expansion { IsExpansion result (expanded limits (text_seen tree.now) kind) }
    ensures meaning { IfOk result (λ spec. KeepsMeaning limits (text_seen tree.now) spec.formulas spec.whole) }
    ensures few { IfOk result (λ spec. HasFewSignals limits (length spec.inputs.items) (length spec.outputs.items) spec.formulas) }
{
    let Some(kind) = kind_of(kind, tree) else {
        return Err(fault(SpecCode::TargetDiffers, tree.info.target_at));
    };
    let mut work = Work {
        limits,
        done: 0,
        formulas: Formulas::new(alloc),
    };
    let mut signals = declared_signals(alloc, tree, &mut work)?;
    let sections = flat_sections(&mut signals, tree, &mut work)?;
    let whole = whole_formula(tree.info.strict, &sections, &mut work)?;
    Ok(Spec {
        inputs: signals.inputs,
        outputs: signals.outputs,
        kind,
        strict: tree.info.strict,
        formulas: work.formulas,
        sections,
        whole,
    })
}
