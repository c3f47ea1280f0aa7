//! What an annotation claims, of lines of which none fails.
ghost use Rattle.std.specs.Prelude.{◌≡◌, ◌≢◌, ◌+◌, ◌<◌, IfOk, IfSome, length};
ghost use Rattle.annot_check.specs.declared.faults.AnnotFault.TheVariants.{NoMemory};
ghost use Rattle.document_text.specs.Reading.{circuit_in};
ghost use Rattle.solve_check.specs.FirstBad.{cause_line as line_of_cause, output_line as line_of_output};
ghost use Rattle.solve_check.specs.Parts.{CanBeTested, IsClaimed, IsReadingOf, IsSoundCircuit, IsToldOf, IsFaultWithinDocument, annotated_seen};

use crate::annotated::{Annotated, Reading, annotated_in, circuit_is_kept};
use crate::given::kind_for;
use aiger_text::{Circuit, runs_on_every_input};
use annot_check::AnnotFault;
use annot_check::laws::valid_lists_show_kind;
use document_text::CircuitPart;
use named_annotation::{NamedAnnotation, check_named_annotation};
use solve_ground::SolveText;
use solved_text::SolvedLines;
use std::alloc::{AllocError, Global};

/// The line at which the annotation isn't valid for its circuit and the text, if it isn't.
pub(crate) fn claim_line(
    alloc: Global,
    text: &SolveText,
    bytes: &[u8],
    lines: &SolvedLines,
    reading: &Reading,
) -> Result<Option<u64>, AllocError>
    requires { IsReadingOf text.now bytes.now lines.now reading.now }
    ensures { IfOk result (IsClaimed text.now bytes.now lines.now) }
{
    let Some(annotated) = annotated_in(lines) else {
        return Ok(None);
    };
    match reading {
        Reading::Named(named) => pairs_line(alloc, text, annotated, named),
        Reading::Absent => Err(AllocError),
        Reading::Refused(_) => Err(AllocError),
    }
}

/// The line at which an annotation fails for its circuit, or none where it is valid.
fn pairs_line(
    alloc: Global,
    text: &SolveText,
    annotated: Annotated<'_>,
    named: &NamedAnnotation,
) -> Result<Option<u64>, AllocError>
    requires { CanBeTested (annotated_seen annotated) named.now }
    ensures { IfOk result (IsToldOf text.now (annotated_seen annotated.entry) named.now) }
{
    let Annotated { file, side, .. } = annotated;
    match check_named_annotation(alloc, &file.circuit, side, kind_for(text, side), named) {
        Ok(()) => Ok(None),
        Err(fault) => {
            let line = cause_line(annotated, named, fault)?;
            Ok(Some(line))
        }
    }
}

/// The line at which an annotation fails by this cause.
fn cause_line(
    annotated: Annotated<'_>,
    named: &NamedAnnotation,
    fault: AnnotFault,
) -> Result<u64, AllocError>
    requires within { IsFaultWithinDocument (annotated_seen annotated) named.now fault }
    requires tested { CanBeTested (annotated_seen annotated) named.now }
    ensures line { IfOk result (λ line. line ≡ line_of_cause (annotated_seen annotated.entry) named.now fault) }
    ensures some { IfOk result (λ _. fault ≢ NoMemory) }
{
    let file = annotated.file;
    let head = annotated.place.line;
    match fault {
        AnnotFault::NoMemory => Err(AllocError),
        AnnotFault::BadLine(_) => Err(AllocError),
        AnnotFault::NoStart => Ok(head),
        AnnotFault::NotMoore(output) => Ok(output_line(&file.circuit, output)),
        AnnotFault::Broken(pair) => Ok(head + 1 + named.states.len() as u64 + pair as u64),
    }
}

/// The line of an output of a circuit.
fn output_line(circuit: &Circuit, output: usize) -> u64
    requires { (length circuit.now.inputs < 17) × (output < 17) }
    ensures { result ≡ line_of_output circuit.now output }
{
    2 + circuit.inputs.len() as u64 + circuit.latches.len() as u64 + output as u64
}

/// What is known of a circuit that was read.
pub(crate) fn circuit_is_sound(part: &CircuitPart)
    ensures { IfSome (circuit_in part.now) IsSoundCircuit }
{
    if let CircuitPart::Stated(file) = part {
        let circuit = &file.circuit;
        circuit_is_kept(circuit);
        runs_on_every_input(circuit);
        valid_lists_show_kind(circuit);
    }
}
