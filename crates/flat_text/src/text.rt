//! From the bytes of a text to its flat sections.

ghost use Rattle.std.specs.Prelude.{◌≡◌, ℕ, Err, IfOk, length};
ghost use Rattle.flat_text.specs.FlatNames.{HasPlainNames};
ghost use Rattle.flat_text.specs.FlatOf.{IsFlatFault, IsFlatOf};
ghost use Rattle.tlsf_expand.specs.FewSignals.{HasFewSignals};
ghost use Rattle.tlsf_expand.specs.FlatText.{spec_seen};
ghost use Rattle.spec_faults.specs.declared.code.SpecCode.{SpecCode as Code};
ghost use Rattle.spec_faults.specs.declared.code.SpecFault.TheVariants.{At};

use letters_and_lassos::Kind;
use spec_faults::SpecFault;
use std::alloc::Global;
use text_limits::Limits;
use tlsf_expand::{Spec, expand};
use tlsf_reader::read;

/// The flat sections of a text with the formula of the whole, or its first fault, within these limits. A kind that is given stands for those
/// that the text names.
pub fn expand_text(
    alloc: Global,
    text: &[u8],
    kind: Option<Kind>,
    limits: Limits,
) -> Result<Spec, SpecFault>
    ensures flat { IfOk result (λ spec. IsFlatOf limits text.now kind (spec_seen spec)) }
    ensures few { IfOk result (λ spec. HasFewSignals limits (length spec.inputs.items) (length spec.outputs.items) spec.formulas) }
    ensures names { IfOk result (λ spec. HasPlainNames (spec_seen spec).expanded) }
    ensures fault { (code : Code) (place : ℕ) → result ≡ Err (At code place) → IsFlatFault limits text.now kind code place }
{
    let tree = read(alloc, text)?;
    expand(alloc, &tree, kind, limits)
}
