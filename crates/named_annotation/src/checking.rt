//! Whether an annotation over named states is valid.

ghost use Rattle.std.specs.Prelude.{IfErr, OnOk, length};
ghost use Rattle.annot_check.specs.Causes.{CanBeChecked};
ghost use Rattle.named_annotation.specs.Laws.{IsNamedCause, IsValidNamed};

use crate::reading::NamedAnnotation;
use aiger_text::Circuit;
use annot_check::{AnnotFault, check_annotation};
use letters_and_lassos::{Kind, Side};
use std::alloc::Global;

/// Whether an annotation over named states is valid for a circuit that plays this side and its own kind, or else the first cause for
/// which it isn't: the start, the first output that leads to an input where the kind is Moore, the first pair that breaks the rule.
///
/// Costs a step of the circuit for each latch values that have a pair and each letter that is read, and a look-up of a pair for each edge
/// that fits there.
pub fn check_named_annotation(
    alloc: Global,
    circuit: &Circuit,
    side: Side,
    kind: Kind,
    annotation: &NamedAnnotation,
) -> Result<(), AnnotFault>
    requires { CanBeChecked circuit.now (length circuit.now.inputs) annotation.now.list.pairs }
    ensures valid { OnOk result (IsValidNamed side circuit.now kind annotation.now) }
    ensures cause { IfErr result (IsNamedCause side circuit.now kind annotation.now) }
{
    let inputs = circuit.inputs.len() as u32;
    check_annotation(
        alloc,
        circuit,
        side,
        kind,
        &annotation.automaton,
        inputs,
        &annotation.list,
    )
}
