//! A document's bytes, line by line.
ghost use Rattle.std.specs.Prelude.{◌≡◌, ◌+◌, ◌<◌, ◌≤◌, ◌^◌, [], IfOk, IfSome, Some, None, length, is_some};
ghost use Rattle.std.specs.List.{list_all};
ghost use Rattle.aiger_text.specs.declared.faults.CircuitFault.TheVariants.{NoMemory};
ghost use Rattle.document_text.specs.Reading.{ReadsBehind, ReadsBody, Reads, all_named as has_all_names, fault_line as line_of_fault, line_count, order_in, document_of as document_in, circuit_in, name_lines_in, comment_line_in};
ghost use Rattle.document_text.specs.Header.{no_header};
ghost use Rattle.document_text.specs.Shown.{shown_body};

use crate::documents::{Document, LogPart, Verdict};
use crate::header::{Header, read_header};
use crate::logs::read_logs;
use crate::order::{Order, order_of};
use aiger_text::{Circuit, CircuitFault, CircuitFile, read_circuit};
use names_and_numbers::Name;
use std::alloc::{AllocError, Global};
use std::marker::Model;

/// What a document's bytes begin with.
#[derive(Drop)]
pub enum CircuitPart {
    /// The first line of a document without a circuit.
    Absent,
    /// A circuit with a fault.
    Faulty,
    Stated(CircuitFile),
}

/// What a document's lines state, as far as each is what is wanted there, and the first that isn't.
#[derive(Drop)]
pub struct DocumentLines {
    pub circuit: CircuitPart,
    pub header: Header,
    /// The line of the verdict, 0 where none is reached.
    pub verdict_line: u64,
    /// The last one has the entries before the bad line.
    pub logs: Vec<LogPart>,
    pub bad: Option<u64>,
}

impl Model for DocumentLines {
    ghost use Rattle.document_text.specs.Reading as reading;

    ghost Value = { reading.DocumentLines };

    ghost view = { λ d. record { circuit = d.circuit; header = d.header; verdict_line = d.verdict_line; logs = d.logs.items; bad = d.bad } };
}

/// What was read of the lines behind a circuit, or without one.
#[derive(Drop)]
struct BodyRead {
    header: Header,
    logs: Vec<LogPart>,
    bad: Option<u64>,
}

impl BodyRead {
    /// With its verdict in that line.
    fn behind(self, circuit: CircuitPart, verdict_line: u64) -> DocumentLines
        ensures { result ≡ record { circuit = circuit; header = self.header; verdict_line = verdict_line; logs = self.logs.items; bad = self.bad } }
    {
        DocumentLines {
            circuit,
            header: self.header,
            verdict_line,
            logs: self.logs,
            bad: self.bad,
        }
    }
}

/// Reads a document's lines up to the first that isn't what is wanted there, without the text that the document is for.
///
/// It is linear in the bytes.
pub fn read_lines(alloc: Global, bytes: &[u8]) -> Result<DocumentLines, AllocError>
    ensures { IfOk result (Reads bytes.now) }
{
    if bytes.starts_with(b"boundsyn ") {
        let body = read_body(alloc, false, 1, bytes)?;
        return Ok(body.behind(CircuitPart::Absent, 2));
    }
    let file = match read_circuit(alloc, bytes) {
        Ok(file) => file,
        Err(fault) => {
            let Some(line) = fault_line(fault) else {
                return Err(AllocError);
            };
            return Ok(bad_at(alloc, CircuitPart::Faulty, line));
        }
    };
    let Some(at) = file.comment_at else {
        let line = file.comment_line;
        return Ok(bad_at(alloc, CircuitPart::Stated(file), line));
    };
    read_behind(alloc, file, &bytes[at..])
}

/// A document of which nothing but the circuit was read, with its first bad line.
fn bad_at(alloc: Global, circuit: CircuitPart, line: u64) -> DocumentLines
    ensures { result ≡ record { circuit = circuit; header = no_header; verdict_line = 0; logs = []; bad = Some line } }
{
    DocumentLines {
        circuit,
        header: Header::none(),
        verdict_line: 0,
        logs: Vec::new(alloc),
        bad: Some(line),
    }
}

/// Reads the lines behind a circuit and the line `c`.
fn read_behind(
    alloc: Global,
    file: CircuitFile,
    comment: &[u8],
) -> Result<DocumentLines, AllocError>
    requires { file.comment_line + length comment.now + 16 < 2 ^ 64 }
    ensures { IfOk result (ReadsBehind file comment.now) }
{
    let line = file.comment_line;
    if all_named(&file.circuit) {
        let body = read_body(alloc, true, line + 1, comment)?;
        Ok(body.behind(CircuitPart::Stated(file), line + 2))
    } else {
        Ok(DocumentLines {
            circuit: CircuitPart::Stated(file),
            header: read_header(true, line + 1, comment).header,
            verdict_line: line + 2,
            logs: Vec::new(alloc),
            bad: Some(line),
        })
    }
}

/// Reads the lines from line `first` on, behind a circuit or without one.
fn read_body(alloc: Global, circuit: bool, first: u64, bytes: &[u8]) -> Result<BodyRead, AllocError>
    requires { first + length bytes.now + 10 < 2 ^ 64 }
    ensures { IfOk result (λ body. ReadsBody circuit first bytes.now (shown_body body)) }
{
    let read = read_header(circuit, first, bytes);
    let header = read.header;
    if header.bad.is_some() {
        return Ok(BodyRead {
            header,
            logs: Vec::new(alloc),
            bad: header.bad,
        });
    }
    let order = header.order();
    let logs = read_logs(alloc, order, first + header.lines(), read.rest)?;
    Ok(BodyRead {
        header,
        logs: logs.logs,
        bad: logs.bad,
    })
}

impl Header {
    /// The order of the logs that a whole header wants.
    fn order(&self) -> Order
        ensures { result ≡ order_in self.now }
    {
        let version = self.version.unwrap_or(0);
        let verdict = self.verdict.unwrap_or(Verdict::Unknown(None));
        order_of(version, verdict, self.max.unwrap_or(0), self.found)
    }

    /// The number of lines of a whole header.
    fn lines(&self) -> u64
        ensures count { result ≡ line_count self.now }
        ensures few { result ≤ 6 }
    {
        if self.found == 0 { 5 } else { 6 }
    }
}

/// Whether each input and each output has a name.
pub fn all_named(circuit: &Circuit) -> bool
    ensures { result ≡ has_all_names circuit.now }
{
    are_named(&circuit.input_names) && are_named(&circuit.output_names)
}

fn are_named(names: &[Option<Name>]) -> bool
    ensures { result ≡ list_all is_some names.now }
{
    names.iter().all(|name| name.is_some())
}

/// The line of a fault, but for want of memory.
pub fn fault_line(fault: CircuitFault) -> Option<u64>
    ensures line { IfSome result (λ line. line ≡ line_of_fault fault) }
    ensures no_memory { fault ≡ NoMemory → result ≡ None }
{
    match fault {
        CircuitFault::NoMemory => None,
        CircuitFault::BadHeader(line) => Some(line),
        CircuitFault::BadLine(line) => Some(line),
        CircuitFault::Undefined(line) => Some(line),
        CircuitFault::DefinedTwice(line) => Some(line),
        CircuitFault::Cycle(line) => Some(line),
        CircuitFault::Unsupported(line) => Some(line),
        CircuitFault::TooLarge(line) => Some(line),
    }
}

/// The circuit of a document, with the lines of its names and the line `c`.
#[derive(Drop)]
struct Stated {
    circuit: Option<Circuit>,
    name_lines: Vec<u64>,
    comment_line: u64,
}

impl CircuitPart {
    fn into_stated(self, alloc: Global) -> Stated
        ensures circuit { result.circuit ≡ circuit_in self }
        ensures name_lines { result.name_lines.items ≡ name_lines_in self }
        ensures comment_line { result.comment_line ≡ comment_line_in self }
    {
        match self {
            CircuitPart::Absent => Stated::none(alloc),
            CircuitPart::Faulty => Stated::none(alloc),
            CircuitPart::Stated(file) => Stated {
                circuit: Some(file.circuit),
                name_lines: file.name_lines,
                comment_line: file.comment_line,
            },
        }
    }
}

impl Stated {
    fn none(alloc: Global) -> Stated
        ensures circuit { result.circuit ≡ None }
        ensures name_lines { result.name_lines.items ≡ [] }
        ensures comment_line { result.comment_line ≡ 0 }
    {
        Stated {
            circuit: None,
            name_lines: Vec::new(alloc),
            comment_line: 0,
        }
    }
}

impl DocumentLines {
    /// The document, where no line of it is missing.
    pub fn into_document(self, alloc: Global) -> Option<Document>
        ensures { result ≡ document_in self }
    {
        let header = self.header;
        let version = header.version?;
        let verdict = header.verdict?;
        let kind = header.kind?;
        let max = header.max?;
        let entries = header.entries?;
        let stated = self.circuit.into_stated(alloc);
        Some(Document {
            version,
            verdict,
            kind,
            max,
            entries,
            found: header.found,
            circuit: stated.circuit,
            logs: self.logs,
            name_lines: stated.name_lines,
            comment_line: stated.comment_line,
            verdict_line: self.verdict_line,
        })
    }
}
