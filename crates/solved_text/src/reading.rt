//! A document's bytes, line by line.
ghost use Rattle.std.specs.Prelude.{◌≡◌, ◌+◌, ◌<◌, ◌^◌, ◌↔◌, IfOk, IfSome, IsTrue, length};
ghost use Rattle.std.specs.Option.{option_copied};
ghost use Rattle.solved_text.specs.Places.{AreNumbered};
ghost use Rattle.solved_text.specs.Reading.{IsSixth, Reads, ReadsBehind, ReadsBody, ReadsRest, annotation_of as annotation_behind, bad_of as bad_line_behind, begins_sixth as is_begun_so, circuit_alone as with_circuit_alone, lines_with, no_rest, place_in as place_in_bytes, rest_behind};
ghost use Rattle.solved_text.specs.Shown.{shown_annotation, shown_body, shown_logs, shown_rest};

use crate::annotation::{
    AnnotationPlace, AnnotationText, annotation_at, bad_at_end, bad_of_annotation,
};
use crate::documents::SizeLog;
use crate::header::{Header, read_header};
use crate::logs::{LogsRead, read_logs};
use aiger_text::{CircuitFile, read_circuit};
use document_text::{CircuitPart, all_named, behind, fault_line};
use std::alloc::{AllocError, Global};
use std::marker::Model;

/// What a document's lines state, as far as each is what is wanted there, and the first that isn't.
#[derive(Drop)]
pub struct SolvedLines {
    pub circuit: CircuitPart,
    pub header: Header,
    /// The line of the verdict, 0 where none is reached.
    pub verdict_line: u64,
    /// The last one has the entries before the bad line.
    pub logs: Vec<SizeLog>,
    /// With a circuit, behind all logs.
    pub annotation: Option<AnnotationPlace>,
    pub bad: Option<u64>,
}

impl Model for SolvedLines {
    ghost use Rattle.solved_text.specs.Reading as reading;

    ghost Value = { reading.SolvedLines };

    ghost view = { λ d. record { circuit = d.circuit; header = d.header; verdict_line = d.verdict_line; logs = d.logs.items; annotation = d.annotation; bad = d.bad } };
}

/// What was read of the lines behind a header.
#[derive(Drop)]
struct RestRead<'a> {
    logs: Vec<SizeLog>,
    annotation: Option<AnnotationText<'a>>,
    bad: Option<u64>,
}

/// What was read of the lines behind a circuit, or without one.
#[derive(Drop)]
struct BodyRead<'a> {
    header: Header,
    rest: RestRead<'a>,
}

impl<'a> RestRead<'a> {
    /// Line n is bad, and nothing is read behind it.
    fn none(alloc: Global, n: u64) -> RestRead<'a>
        ensures { shown_rest result ≡ no_rest n }
    {
        RestRead {
            logs: Vec::new(alloc),
            annotation: None,
            bad: Some(n),
        }
    }

    /// Behind logs that were read.
    fn behind(read: LogsRead<'a>) -> RestRead<'a>
        requires { IfSome read.rest (λ text. read.line + length text.now + 1 < 2 ^ 64) }
        ensures { shown_rest result ≡ rest_behind (shown_logs read.entry) }
    {
        let LogsRead { logs, line, rest } = read;
        RestRead {
            logs,
            annotation: annotation_of(line, rest),
            bad: bad_of(line, rest),
        }
    }
}

impl BodyRead<'_> {
    /// Behind a circuit, or without one, in these bytes, with its verdict in that line.
    fn behind(self, bytes: &[u8], circuit: CircuitPart, verdict_line: u64) -> SolvedLines
        ensures { result ≡ lines_with bytes.now circuit verdict_line (shown_body self.entry) }
    {
        SolvedLines {
            circuit,
            header: self.header,
            verdict_line,
            logs: self.rest.logs,
            annotation: place_in(bytes, self.rest.annotation),
            bad: self.rest.bad,
        }
    }
}

/// The place of an annotation that ends these bytes.
fn place_in(bytes: &[u8], annotation: Option<AnnotationText<'_>>) -> Option<AnnotationPlace>
    ensures { result ≡ place_in_bytes bytes.now (shown_annotation annotation.entry) }
{
    let annotation = annotation?;
    Some(AnnotationPlace {
        line: annotation.line,
        at: bytes.len().saturating_sub(annotation.text.len()),
    })
}

/// Whether a document is of version 6: its first line, or the line behind the line `c` of a circuit that can be read, is `boundsyn 6`.
pub fn is_sixth(alloc: Global, bytes: &[u8]) -> Result<bool, AllocError>
    ensures { IfOk result (λ is. IsTrue is ↔ IsSixth bytes.now) }
{
    if begins_sixth(bytes) {
        return Ok(true);
    }
    let file = match read_circuit(alloc, bytes) {
        Ok(file) => file,
        Err(fault) => {
            let Some(_line) = fault_line(fault) else {
                return Err(AllocError);
            };
            return Ok(false);
        }
    };
    match file.comment_at {
        Some(at) => Ok(begins_sixth(&bytes[at..])),
        None => Ok(false),
    }
}

fn begins_sixth(bytes: &[u8]) -> bool
    ensures { result ≡ is_begun_so bytes.now }
{
    behind(bytes, b"boundsyn 6\n").is_some()
}

/// Reads the lines of a document of version 6 up to the first that isn't what is wanted there, without the text that the document is
/// for. Of an annotation the place is given, and only that nothing stands behind its line `end`.
///
/// It is linear in the bytes.
pub fn read_solved(alloc: Global, bytes: &[u8]) -> Result<SolvedLines, AllocError>
    ensures reads { IfOk result (Reads bytes.now) }
    ensures numbered { IfOk result (AreNumbered bytes.now) }
{
    if bytes.starts_with(b"boundsyn ") {
        let body = read_body(alloc, false, 1, bytes)?;
        return Ok(body.behind(bytes, CircuitPart::Absent, 2));
    }
    let file = match read_circuit(alloc, bytes) {
        Ok(file) => file,
        Err(fault) => {
            let Some(line) = fault_line(fault) else {
                return Err(AllocError);
            };
            return Ok(circuit_alone(alloc, CircuitPart::Faulty, line));
        }
    };
    let Some(at) = file.comment_at else {
        let line = file.comment_line;
        return Ok(circuit_alone(alloc, CircuitPart::Stated(file), line));
    };
    read_behind(alloc, bytes, file, &bytes[at..])
}

/// A document of which nothing but the circuit was read, with its first bad line.
fn circuit_alone(alloc: Global, circuit: CircuitPart, line: u64) -> SolvedLines
    ensures { result ≡ with_circuit_alone circuit line }
{
    SolvedLines {
        circuit,
        header: Header::none(),
        verdict_line: 0,
        logs: Vec::new(alloc),
        annotation: None,
        bad: Some(line),
    }
}

/// Reads the lines behind a circuit and the line `c`.
fn read_behind(
    alloc: Global,
    bytes: &[u8],
    file: CircuitFile,
    comment: &[u8],
) -> Result<SolvedLines, AllocError>
    requires { file.comment_line + length comment.now + 16 < 2 ^ 64 }
    ensures { IfOk result (ReadsBehind bytes.now file comment.now) }
{
    let line = file.comment_line;
    if all_named(&file.circuit) {
        let body = read_body(alloc, true, line + 1, comment)?;
        Ok(body.behind(bytes, CircuitPart::Stated(file), line + 2))
    } else {
        let body = BodyRead {
            header: read_header(true, line + 1, comment).header,
            rest: RestRead::none(alloc, line),
        };
        Ok(body.behind(bytes, CircuitPart::Stated(file), line + 2))
    }
}

/// Reads the lines from line `first` on, behind a circuit or without one.
fn read_body(
    alloc: Global,
    circuit: bool,
    first: u64,
    bytes: &[u8],
) -> Result<BodyRead<'_>, AllocError>
    requires { first + length bytes.now + 10 < 2 ^ 64 }
    ensures { IfOk result (λ body. ReadsBody circuit first bytes.now (shown_body body)) }
{
    let read = read_header(circuit, first, bytes);
    let header = read.header;
    if let Some(n) = header.bad {
        return Ok(BodyRead {
            header,
            rest: RestRead::none(alloc, n),
        });
    }
    let rest = read_rest(alloc, header.refuted, read.line, read.rest)?;
    Ok(BodyRead { header, rest })
}

/// Reads the lines behind a header, from line n on: the logs of so many sizes and the place of the annotation, or the line `end`.
fn read_rest(
    alloc: Global,
    refuted: Option<u32>,
    n: u64,
    bytes: &[u8],
) -> Result<RestRead<'_>, AllocError>
    requires { n + length bytes.now + 2 < 2 ^ 64 }
    ensures { IfOk result (λ rest. ReadsRest n bytes.now refuted (shown_rest rest)) }
{
    let Some(refuted) = refuted else {
        return Ok(RestRead {
            logs: Vec::new(alloc),
            annotation: None,
            bad: bad_at_end(n, bytes),
        });
    };
    let read = read_logs(alloc, refuted, n, bytes)?;
    Ok(RestRead::behind(read))
}

/// What stands in line n, behind the logs that were read.
fn annotation_of(n: u64, rest: Option<&[u8]>) -> Option<AnnotationText<'_>>
    ensures { shown_annotation result ≡ annotation_behind n (option_copied rest.entry) }
{
    annotation_at(n, rest?)
}

fn bad_of(n: u64, rest: Option<&[u8]>) -> Option<u64>
    requires { IfSome rest (λ text. n + length text.now + 1 < 2 ^ 64) }
    ensures { result ≡ bad_line_behind n (option_copied rest.entry) }
{
    match rest {
        Some(text) => bad_of_annotation(n, text),
        None => Some(n),
    }
}
