//! The answer to a file whose annotation is over the system's automaton.
ghost use Rattle.std.specs.Prelude.{◌≡◌, ◌≢◌, ℕ, List, ◌+◌, ◌<◌, ◌≤◌, ◌^◌, ◌⊎◌, IfErr, IfOk, IfSome, None, Option, length};
ghost use Rattle.std.specs.Option.{option_copied};
ghost use Rattle.letters_and_lassos.specs.declared.kinds.Kind.{Kind};
ghost use Rattle.aiger_text.specs.declared.faults.CircuitFault.TheVariants.{NoMemory};
ghost use Rattle.aiger_text.specs.CircuitFile.{IsFirstFault, States};
ghost use Rattle.aiger_text.specs.CircuitType.{IsCircuit};
ghost use Rattle.annot_check.specs.Causes.{CanBeChecked};
ghost use Rattle.annot_check.specs.declared.faults.AnnotFault.TheVariants.{BadLine};
ghost use Rattle.document_text.specs.Reading.{fault_line as line_of_fault};
ghost use Rattle.document_check.specs.Shown.{facts_of as facts_seen};
ghost use Rattle.tlsf_expand.specs.FlatText.{spec_seen};
ghost use Rattle.program_replies.specs.declared.replies.Status.TheVariants as ended;
ghost use Rattle.program_replies.specs.Statuses.{status_number};
ghost use Rattle.text_ground.specs.Ground.{given_by};
ghost use Rattle.circuit_check.specs.Forms.{NamesStates};
ghost use Rattle.verify_answer.specs.Answer.{VerifyAnswers, verified_line};
ghost use Rattle.verify_answer.specs.FirstBad.{HasComment, cause_line as line_of_cause, comment_of as comment_in, output_line as line_of_output};
ghost use Rattle.verify_answer.specs.Reply.{AreReady, IsForVerify, IsFoundOf, IsToldOf, IsFaultWithinList};

use aiger_text::{Circuit, CircuitFault, CircuitFile, read_circuit, runs_on_every_input};
use annot_check::laws::valid_lists_satisfy;
use annot_check::{AnnotFault, PairList, check_annotation, read_annotation};
use document_check::{TextFacts, earliest, faulty_line, stated_line};
use letters_and_lassos::{Kind, Side};
use program_replies::{Reply, Status, refused_at_line, whole};
use spec_problems::TextProblems;
use std::alloc::{AllocError, Global};
use text_ground::facts_of;

/// The answer to a text with these problems, and to the file of a circuit whose annotation doesn't name its states: `verified as KIND`
/// with status 0, where its annotation is valid for its circuit and the text, or the line of its first bad line with status 40.
///
/// It is linear in the bytes, and costs a step of the circuit for each pair of the annotation and each letter of inputs.
pub fn listed_answer(
    alloc: Global,
    text: &TextProblems,
    circuit: &[u8],
) -> Result<Reply, AllocError>
    requires { AreReady (given_by (spec_seen text.now.spec) text.now.problems) }
    ensures { (bytes : List ℕ) (given : Option Kind) → IsForVerify bytes given text.now → (NamesStates circuit.now → ⊥)
        → IfOk result (λ r. VerifyAnswers bytes given circuit.now r.bytes.items (status_number r.status)) }
{
    match first_bad_line(alloc, facts_of(text), circuit)? {
        None => verified(alloc, text.problems.system.kind),
        Some(line) => refused_at_line(alloc, line),
    }
}

/// The reply to a circuit that is verified.
fn verified(alloc: Global, kind: Kind) -> Result<Reply, AllocError>
    ensures { IfOk result (λ r. (r.bytes.items ≡ verified_line kind) × (r.status ≡ ended.Done)) }
{
    match kind {
        Kind::Mealy => whole(alloc, b"verified as Mealy\n", Status::Done),
        Kind::Moore => whole(alloc, b"verified as Moore\n", Status::Done),
    }
}

/// The first line at which a circuit's file fails for a text, or none, where its annotation is valid for its circuit.
fn first_bad_line(
    alloc: Global,
    facts: TextFacts<'_>,
    bytes: &[u8],
) -> Result<Option<u64>, AllocError>
    requires { AreReady (facts_seen facts) }
    ensures { IfOk result (IsFoundOf (facts_seen facts.entry) bytes.now) }
{
    match read_circuit(alloc, bytes) {
        Ok(file) => file_line(alloc, facts, bytes, &file),
        Err(fault) => fault_line(facts, bytes, fault),
    }
}

/// The line of a circuit with this fault: its own, or an earlier one at which its counts or its names fail.
fn fault_line(
    facts: TextFacts<'_>,
    bytes: &[u8],
    fault: CircuitFault,
) -> Result<Option<u64>, AllocError>
    requires { (fault ≡ NoMemory) ⊎ IsFirstFault bytes.now fault }
    ensures { IfOk result (IsFoundOf (facts_seen facts.entry) bytes.now) }
{
    let line = own_line(fault)?;
    Ok(earliest(Some(line), faulty_line(facts, bytes)))
}

/// The line of a fault, but for want of memory.
fn own_line(fault: CircuitFault) -> Result<u64, AllocError>
    ensures line { IfOk result (λ line. line ≡ line_of_fault fault) }
    ensures some { IfOk result (λ _. fault ≢ NoMemory) }
{
    match fault {
        CircuitFault::NoMemory => Err(AllocError),
        CircuitFault::BadHeader(line) => Ok(line),
        CircuitFault::BadLine(line) => Ok(line),
        CircuitFault::Undefined(line) => Ok(line),
        CircuitFault::DefinedTwice(line) => Ok(line),
        CircuitFault::Cycle(line) => Ok(line),
        CircuitFault::Unsupported(line) => Ok(line),
        CircuitFault::TooLarge(line) => Ok(line),
    }
}

/// The first line at which a file whose circuit has no fault fails.
fn file_line(
    alloc: Global,
    facts: TextFacts<'_>,
    bytes: &[u8],
    file: &CircuitFile,
) -> Result<Option<u64>, AllocError>
    requires ready { AreReady (facts_seen facts) }
    requires states { States bytes.now file.now }
    ensures { IfOk result (IsFoundOf (facts_seen facts.entry) bytes.now) }
{
    if let Some(line) = stated_line(facts, Side::System, file) {
        return Ok(Some(line));
    }
    let Some(comment) = comment_of(file, bytes) else {
        return Ok(Some(file.comment_line));
    };
    comment_line(alloc, facts, bytes, file, comment)
}

/// What stands behind the line `c`.
fn comment_of<'a>(file: &CircuitFile, bytes: &'a [u8]) -> Option<&'a [u8]>
    requires { States bytes.now file.now }
    ensures { option_copied result ≡ comment_in file.now bytes.now }
{
    let at = file.comment_at?;
    Some(&bytes[at..])
}

/// The first line at which the annotation in a file's comment fails.
fn comment_line(
    alloc: Global,
    facts: TextFacts<'_>,
    bytes: &[u8],
    file: &CircuitFile,
    comment: &[u8],
) -> Result<Option<u64>, AllocError>
    requires ready { AreReady (facts_seen facts) }
    requires commented { HasComment (facts_seen facts) bytes.now file.now comment.now }
    ensures { IfOk result (IsFoundOf (facts_seen facts.entry) bytes.now) }
{
    let _size = bytes.len();
    circuit_is_kept(&file.circuit);
    let latches = latch_count(&file.circuit);
    match read_annotation(alloc, comment, latches, facts.system.automaton.states()) {
        Ok(list) => pairs_line(alloc, facts, file, &list),
        Err(fault) => {
            let line = line_in_comment(fault)?;
            Ok(Some(file.comment_line + line))
        }
    }
}

/// The number of a circuit's latches.
fn latch_count(circuit: &Circuit) -> u32
    ensures { result ≡ length circuit.now.latches }
{
    let _variables = circuit.variables;
    circuit.latches.len() as u32
}

/// What the type of a circuit keeps.
fn circuit_is_kept(circuit: &Circuit)
    ensures { IsCircuit circuit.now }
{
    let _latches = &circuit.latches;
}

/// The line of a comment at which its text is refused, from 1.
fn line_in_comment(fault: AnnotFault) -> Result<u64, AllocError>
    ensures { IfOk result (λ line. fault ≡ BadLine line) }
{
    match fault {
        AnnotFault::BadLine(line) => Ok(line),
        _ => Err(AllocError),
    }
}

/// The line at which a list of pairs fails for the circuit of its file, or none where it is valid.
fn pairs_line(
    alloc: Global,
    facts: TextFacts<'_>,
    file: &CircuitFile,
    list: &PairList,
) -> Result<Option<u64>, AllocError>
    requires checked { CanBeChecked file.now.circuit (length (facts_seen facts).inputs) list.now.pairs }
    requires lines { file.now.comment_line + list.now.head_line + length list.now.pairs < 2 ^ 64 }
    ensures { IfOk result (IsToldOf (facts_seen facts.entry) file.now list.now) }
{
    let circuit = &file.circuit;
    circuit_is_kept(circuit);
    valid_lists_satisfy(circuit);
    runs_on_every_input(circuit);
    let kind = facts.system.kind;
    let inputs = facts.inputs.len() as u32;
    match check_annotation(
        alloc,
        circuit,
        Side::System,
        kind,
        &facts.system.automaton,
        inputs,
        list,
    ) {
        Ok(()) => Ok(None),
        Err(fault) => {
            let line = cause_line(file, list, fault)?;
            Ok(Some(line))
        }
    }
}

/// The line at which a list of pairs fails by this cause.
fn cause_line(file: &CircuitFile, list: &PairList, fault: AnnotFault) -> Result<u64, AllocError>
    requires within { IsFaultWithinList file.now list.now fault }
    requires few { (length file.now.circuit.inputs < 17) × (length file.now.circuit.outputs < 17) }
    requires lines { file.now.comment_line + list.now.head_line + length list.now.pairs < 2 ^ 64 }
    ensures line { IfOk result (λ line. line ≡ line_of_cause file.now list.now fault) }
    ensures some { IfOk result (λ _. fault ≢ AnnotFault.NoMemory) }
{
    let head = file.comment_line + list.head_line;
    match fault {
        AnnotFault::NoMemory => Err(AllocError),
        AnnotFault::BadLine(_) => Err(AllocError),
        AnnotFault::NoStart => Ok(head),
        AnnotFault::NotMoore(output) => Ok(output_line(&file.circuit, output)),
        AnnotFault::Broken(pair) => Ok(head + 1 + pair as u64),
    }
}

/// The line of an output of a circuit.
fn output_line(circuit: &Circuit, output: usize) -> u64
    requires { (length circuit.now.inputs < 17) × (output < 17) }
    ensures { result ≡ line_of_output circuit.now output }
{
    2 + circuit.inputs.len() as u64 + circuit.latches.len() as u64 + output as u64
}
