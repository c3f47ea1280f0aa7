//! A circuit's file against its duty.
ghost use Rattle.std.specs.Prelude.{◌≡◌, ◌≢◌, ◌+◌, ◌<◌, ◌⊎◌, IfErr, IfOk, length};
ghost use Rattle.aiger_text.specs.declared.faults.CircuitFault.TheVariants.{NoMemory};
ghost use Rattle.aiger_text.specs.CircuitFile.{IsFirstFault, States};
ghost use Rattle.aiger_text.specs.CircuitType.{IsCircuit};
ghost use Rattle.annot_check.specs.declared.faults.AnnotFault.TheVariants.{BadLine};
ghost use Rattle.document_text.specs.Reading.{fault_line as line_of_fault};
ghost use Rattle.circuit_check.specs.Duty.{IsReady, owed_by};
ghost use Rattle.circuit_check.specs.FirstBad.{HasComment, cause_line as line_of_cause, output_line as line_of_output};
ghost use Rattle.circuit_check.specs.Parts.{CanBeTested, IsFoundOf, IsToldOf, IsFaultWithinFile};

use crate::duty::Duty;
use crate::forms::comment_of;
use aiger_text::{Circuit, CircuitFault, CircuitFile, read_circuit, runs_on_every_input};
use annot_check::AnnotFault;
use annot_check::laws::valid_lists_show_kind;
use circuit_names::{earliest, faulty_line, stated_line};
use letters_and_lassos::Side;
use named_annotation::laws::valid_named_lists_show;
use named_annotation::{NamedAnnotation, check_named_annotation, read_named_annotation};
use std::alloc::{AllocError, Global};

/// The first line at which a circuit's file fails, or none where its annotation is valid for its circuit; and then what the circuit
/// keeps from being true is so on each of its run lassos.
///
/// It is linear in the bytes, beside the covers of the named sets, and costs a step of the circuit for each pair of the annotation and
/// each letter that is read.
pub fn first_bad_line(
    alloc: Global,
    duty: Duty<'_>,
    bytes: &[u8],
) -> Result<Option<u64>, AllocError>
    requires { IsReady (owed_by duty) }
    ensures { IfOk result (IsFoundOf (owed_by duty.entry) bytes.now) }
{
    match read_circuit(alloc, bytes) {
        Ok(file) => file_line(alloc, duty, bytes, &file),
        Err(fault) => fault_line(duty, bytes, fault),
    }
}

/// The line of a circuit with this fault: its own, or an earlier one at which its counts or its names fail.
fn fault_line(duty: Duty<'_>, bytes: &[u8], fault: CircuitFault) -> Result<Option<u64>, AllocError>
    requires { (fault ≡ NoMemory) ⊎ IsFirstFault bytes.now fault }
    ensures { IfOk result (IsFoundOf (owed_by duty.entry) bytes.now) }
{
    let line = own_line(fault)?;
    Ok(earliest(Some(line), faulty_line(duty.names, bytes)))
}

/// The line of a fault, but for want of memory.
fn own_line(fault: CircuitFault) -> Result<u64, AllocError>
    ensures line { IfOk result (λ line. line ≡ line_of_fault fault) }
    ensures some { IfOk result (λ _. fault ≢ NoMemory) }
{
    match fault {
        CircuitFault::NoMemory => Err(AllocError),
        CircuitFault::BadHeader(line) => Ok(line),
        CircuitFault::BadLine(line) => Ok(line),
        CircuitFault::Undefined(line) => Ok(line),
        CircuitFault::DefinedTwice(line) => Ok(line),
        CircuitFault::Cycle(line) => Ok(line),
        CircuitFault::Unsupported(line) => Ok(line),
        CircuitFault::TooLarge(line) => Ok(line),
    }
}

/// The first line at which a file whose circuit has no fault fails.
fn file_line(
    alloc: Global,
    duty: Duty<'_>,
    bytes: &[u8],
    file: &CircuitFile,
) -> Result<Option<u64>, AllocError>
    requires ready { IsReady (owed_by duty) }
    requires states { States bytes.now file.now }
    ensures { IfOk result (IsFoundOf (owed_by duty.entry) bytes.now) }
{
    if let Some(line) = stated_line(duty.names, Side::System, file) {
        return Ok(Some(line));
    }
    let Some(comment) = comment_of(file, bytes) else {
        return Ok(Some(file.comment_line));
    };
    comment_line(alloc, duty, bytes, file, comment)
}

/// The first line at which the annotation in a file's comment fails.
fn comment_line(
    alloc: Global,
    duty: Duty<'_>,
    bytes: &[u8],
    file: &CircuitFile,
    comment: &[u8],
) -> Result<Option<u64>, AllocError>
    requires ready { IsReady (owed_by duty) }
    requires commented { HasComment (owed_by duty) bytes.now file.now comment.now }
    ensures { IfOk result (IsFoundOf (owed_by duty.entry) bytes.now) }
{
    let _size = bytes.len();
    let circuit = &file.circuit;
    circuit_is_kept(circuit);
    valid_lists_show_kind(circuit);
    runs_on_every_input(circuit);
    valid_named_lists_show();
    let (latches, inputs) = (latch_count(circuit), input_count(circuit));
    match read_named_annotation(alloc, comment, latches, inputs, duty.formulas, duty.form) {
        Ok(named) => pairs_line(alloc, duty, file, &named),
        Err(fault) => {
            let line = line_in_comment(fault)?;
            Ok(Some(file.comment_line + line))
        }
    }
}

/// The number of a circuit's latches.
fn latch_count(circuit: &Circuit) -> u32
    ensures { result ≡ length circuit.now.latches }
{
    let _variables = circuit.variables;
    circuit.latches.len() as u32
}

/// The number of a circuit's inputs.
fn input_count(circuit: &Circuit) -> u32
    ensures { result ≡ length circuit.now.inputs }
{
    let _variables = circuit.variables;
    circuit.inputs.len() as u32
}

/// What the type of a circuit keeps.
fn circuit_is_kept(circuit: &Circuit)
    ensures { IsCircuit circuit.now }
{
    let _latches = &circuit.latches;
}

/// The line of a comment at which its text is refused, from 1.
fn line_in_comment(fault: AnnotFault) -> Result<u64, AllocError>
    ensures { IfOk result (λ line. fault ≡ BadLine line) }
{
    match fault {
        AnnotFault::BadLine(line) => Ok(line),
        _ => Err(AllocError),
    }
}

/// The line at which an annotation fails for the circuit of its file, or none where it is valid.
fn pairs_line(
    alloc: Global,
    duty: Duty<'_>,
    file: &CircuitFile,
    named: &NamedAnnotation,
) -> Result<Option<u64>, AllocError>
    requires { CanBeTested file.now named.now }
    ensures { IfOk result (IsToldOf (owed_by duty.entry) file.now named.now) }
{
    match check_named_annotation(alloc, &file.circuit, duty.side, duty.kind, named) {
        Ok(()) => Ok(None),
        Err(fault) => {
            let line = cause_line(file, named, fault)?;
            Ok(Some(line))
        }
    }
}

/// The line at which an annotation fails by this cause.
fn cause_line(
    file: &CircuitFile,
    named: &NamedAnnotation,
    fault: AnnotFault,
) -> Result<u64, AllocError>
    requires within { IsFaultWithinFile file.now named.now fault }
    requires tested { CanBeTested file.now named.now }
    ensures line { IfOk result (λ line. line ≡ line_of_cause file.now named.now fault) }
    ensures some { IfOk result (λ _. fault ≢ AnnotFault.NoMemory) }
{
    let head = file.comment_line + named.list.head_line;
    match fault {
        AnnotFault::NoMemory => Err(AllocError),
        AnnotFault::BadLine(_) => Err(AllocError),
        AnnotFault::NoStart => Ok(head),
        AnnotFault::NotMoore(output) => Ok(output_line(&file.circuit, output)),
        AnnotFault::Broken(pair) => Ok(head + 1 + named.states.len() as u64 + pair as u64),
    }
}

/// The line of an output of a circuit.
fn output_line(circuit: &Circuit, output: usize) -> u64
    requires { (length circuit.now.inputs < 17) × (output < 17) }
    ensures { result ≡ line_of_output circuit.now output }
{
    2 + circuit.inputs.len() as u64 + circuit.latches.len() as u64 + output as u64
}
