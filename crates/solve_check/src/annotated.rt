//! A circuit's annotation among the lines of a document.
ghost use Rattle.std.specs.Prelude.{◌≡◌, IfOk, IfSome, None, length, option_map};
ghost use Rattle.aiger_text.specs.CircuitType.{IsCircuit};
ghost use Rattle.circuit_names.specs.Lines.{stated_line as line_of_stated};
ghost use Rattle.solve_check.specs.Checked.{IsReady};
ghost use Rattle.solve_check.specs.FirstBad.{annotated_in as annotated_in_lines, circuit_line as line_of_circuit, circuit_side as side_of_verdict, side_in as side_of_header};
ghost use Rattle.solve_check.specs.Given.{names_in};
ghost use Rattle.solve_check.specs.Parts.{IsReadAs, IsReadable, IsReadingOf, annotated_seen, refused_in};
ghost use Rattle.solved_text.specs.Places.{StandsAmong};

use crate::given::{form_for, names_of};
use aiger_text::{Circuit, CircuitFile};
use annot_check::AnnotFault;
use circuit_names::{faulty_line, stated_line};
use document_text::CircuitPart;
use letters_and_lassos::Side;
use named_annotation::{NamedAnnotation, read_named_annotation};
use solve_ground::SolveText;
use solved_text::{AnnotationPlace, Header, SolvedLines, Verdict};
use std::alloc::{AllocError, Global};

/// A circuit's file, the side that the circuit plays, and where its annotation stands.
#[derive(Clone, Copy)]
pub(crate) struct Annotated<'a> {
    pub(crate) file: &'a CircuitFile,
    pub(crate) side: Side,
    pub(crate) place: AnnotationPlace,
}

/// What was read of an annotation.
#[derive(Drop)]
pub(crate) enum Reading {
    /// There is none.
    Absent,
    Named(NamedAnnotation),
    /// Its first line that is refused, by its number in the document.
    Refused(u64),
}

impl Reading {
    /// The line that is refused.
    pub(crate) fn refused(&self) -> Option<u64>
        ensures { result ≡ refused_in self.now }
    {
        match self {
            Reading::Absent => None,
            Reading::Named(_) => None,
            Reading::Refused(line) => Some(*line),
        }
    }
}

/// The line at which the circuit counts or names its signals otherwise than the text.
pub(crate) fn circuit_line(
    text: &SolveText,
    bytes: &[u8],
    header: Header,
    circuit: &CircuitPart,
) -> Option<u64>
    ensures { result ≡ line_of_circuit text.now bytes.now header circuit.now }
{
    match circuit {
        CircuitPart::Absent => None,
        CircuitPart::Faulty => faulty_line(names_of(text), bytes),
        CircuitPart::Stated(file) => stated_line(names_of(text), side_in(header), file),
    }
}

/// The side of the circuit, where a verdict is reached.
pub(crate) fn side_in(header: Header) -> Side
    ensures { result ≡ side_of_header header }
{
    match header.verdict {
        Some(verdict) => circuit_side(verdict),
        None => Side::System,
    }
}

fn circuit_side(verdict: Verdict) -> Side
    ensures { result ≡ side_of_verdict verdict }
{
    match verdict {
        Verdict::Realizable(_) => Side::System,
        Verdict::Unrealizable(_) => Side::Environment,
        Verdict::Unknown => Side::System,
    }
}

/// The circuit with an annotation, where there is one.
pub(crate) fn annotated_in(lines: &SolvedLines) -> Option<Annotated<'_>>
    ensures { option_map annotated_seen result ≡ annotated_in_lines lines.now }
{
    match &lines.circuit {
        CircuitPart::Absent => None,
        CircuitPart::Faulty => None,
        CircuitPart::Stated(file) => {
            let place = lines.annotation?;
            let side = side_in(lines.header);
            Some(Annotated { file, side, place })
        }
    }
}

/// Reads the annotation of a document whose circuit counts and names its signals as the text.
pub(crate) fn reading_of(
    alloc: Global,
    text: &SolveText,
    bytes: &[u8],
    lines: &SolvedLines,
) -> Result<Reading, AllocError>
    requires ready { IsReady text.now }
    requires fits { line_of_circuit text.now bytes.now lines.now.header lines.now.circuit ≡ None }
    requires among { IfSome lines.now.annotation (StandsAmong bytes.now) }
    ensures { IfOk result (IsReadingOf text.now bytes.now lines.now) }
{
    match annotated_in(lines) {
        Some(annotated) => read_annotated(alloc, text, bytes, annotated),
        None => Ok(Reading::Absent),
    }
}

fn read_annotated(
    alloc: Global,
    text: &SolveText,
    bytes: &[u8],
    annotated: Annotated<'_>,
) -> Result<Reading, AllocError>
    requires ready { IsReadable text.now }
    requires fits { line_of_stated (names_in text.now) annotated.side annotated.file.now ≡ None }
    requires among { StandsAmong bytes.now annotated.place }
    ensures { IfOk result (IsReadAs text.now bytes.now (annotated_seen annotated.entry)) }
{
    let Annotated { file, side, place } = annotated;
    let circuit = &file.circuit;
    circuit_is_kept(circuit);
    let (latches, inputs) = (latch_count(circuit), input_count(circuit));
    let form = form_for(text, side);
    let lines = &bytes[place.at..];
    match read_named_annotation(alloc, lines, latches, inputs, &text.formulas, form) {
        Ok(named) => Ok(Reading::Named(named)),
        Err(AnnotFault::BadLine(line)) => Ok(Reading::Refused(
            (place.line + line).saturating_sub(1),
        )),
        Err(_) => Err(AllocError),
    }
}

/// The number of a circuit's latches.
fn latch_count(circuit: &Circuit) -> u32
    ensures { result ≡ length circuit.now.latches }
{
    let _variables = circuit.variables;
    circuit.latches.len() as u32
}

/// The number of a circuit's inputs.
fn input_count(circuit: &Circuit) -> u32
    ensures { result ≡ length circuit.now.inputs }
{
    let _variables = circuit.variables;
    circuit.inputs.len() as u32
}

/// What the type of a circuit keeps.
pub(crate) fn circuit_is_kept(circuit: &Circuit)
    ensures { IsCircuit circuit.now }
{
    let _latches = &circuit.latches;
}
