//! A document against a text, as a whole.
ghost use Rattle.std.specs.Prelude.{◌≡◌, ◌+◌, ◌<◌, ◌≤◌, ◌^◌, ℕ, All, IfOk, IsErrOf};
ghost use Rattle.document_text.specs.declared.documents.DocumentFault.TheVariants.{BadLine};
ghost use Rattle.document_text.specs.Reading.{Reads};
ghost use Rattle.document_text.specs.States.{States};
ghost use Rattle.document_check.specs.Holds.{HoldsFor, is_allowed as number_allowed};
ghost use Rattle.document_check.specs.FirstBad.{end_line as line_of_end, environment_sizes, Fails, FailsIn, IsFirstBadFor, last_line as line_of_last, line_behind as line_behind_logs, LogsFailIn, number_line as line_of_number, system_sizes};
ghost use Rattle.document_check.specs.Shown.{AreFacts, AreFactsFor, AreFactsIn, facts_of, IsReadable};

use crate::circuits::circuit_line;
use crate::counted::Counted;
use crate::facts::{Asked, TextFacts, asked_in, counts_of, for_side, wanted_sizes};
use crate::logs::{Wanted, logs_line, may_be_full, names_open};
use circuit_names::earliest;
use document_text::{
    Document, DocumentFault, DocumentLines, LogPart, Verdict, order_of, read_lines,
};
use letters_and_lassos::Side;
use machine_model::Counts;
use std::alloc::{AllocError, Global};
use std::thread::Threads;

/// Checks a document against a text: the document, where it holds for the text, or the first line that fails.
///
/// Where it holds, each log that the document must have is legal and closed, or full where that is allowed, over the base clauses of
/// the text's problem of its side and size, taken with the document's kind and version: what the text's problems count makes no
/// difference, and the components of their automata are found for a document that counts by them alone. Nothing is said of the circuit
/// but that it reads and has the text's names. The entries of a log are tested in pieces on several threads. It takes the time of the
/// bytes and of the literals that hints touch, and the memory of the entries and of one size's base clauses.
pub fn check_document<R: Threads + Sync>(
    rt: &R,
    alloc: Global,
    facts: TextFacts<'_>,
    bytes: &[u8],
) -> Result<Document, DocumentFault>
    requires { AreFacts (facts_of facts) }
    ensures stated { IfOk result (States bytes.now) }
    ensures holds { IfOk result (HoldsFor (facts_of facts.entry)) }
    ensures bad_line { (n : ℕ) → IsErrOf result (BadLine n) → IsFirstBadFor (facts_of facts.entry) bytes.now n }
{
    let lines = read_lines(alloc, bytes)?;
    if let Some(line) = line_of_text(rt, alloc, facts, bytes, &lines)? {
        return Err(DocumentFault::BadLine(line));
    }
    match lines.into_document(alloc) {
        Some(document) => Ok(document),
        None => unreachable!(),
    }
}

/// The first line at which the lines fail that were read of the bytes, over problems that count as the document's version wants it.
fn line_of_text<R: Threads + Sync>(
    rt: &R,
    alloc: Global,
    facts: TextFacts<'_>,
    bytes: &[u8],
    lines: &DocumentLines,
) -> Result<Option<u64>, AllocError>
    requires facts { AreFacts (facts_of facts) }
    requires lines { Reads bytes.now lines.now }
    ensures { IfOk result (Fails (facts_of facts.entry) bytes.now lines.now) }
{
    match counts_of(&lines.header) {
        Counts::Whole => first_line(rt, alloc, facts, bytes, lines),
        Counts::Local => line_by_component(rt, alloc, facts, bytes, lines),
    }
}

/// The same over problems that count by component.
fn line_by_component<R: Threads + Sync>(
    rt: &R,
    alloc: Global,
    facts: TextFacts<'_>,
    bytes: &[u8],
    lines: &DocumentLines,
) -> Result<Option<u64>, AllocError>
    requires facts { AreFacts (facts_of facts) }
    requires lines { Reads bytes.now lines.now }
    ensures { IfOk result (Fails (facts_of facts.entry) bytes.now lines.now) }
{
    let counted = Counted::of(alloc, facts)?;
    let line = first_line(rt, alloc, counted.facts(facts), bytes, lines)?;
    Ok(line)
}

/// The same over problems that count so already.
fn first_line<R: Threads + Sync>(
    rt: &R,
    alloc: Global,
    facts: TextFacts<'_>,
    bytes: &[u8],
    lines: &DocumentLines,
) -> Result<Option<u64>, AllocError>
    requires facts { AreFactsIn lines.now.header (facts_of facts) }
    requires lines { Reads bytes.now lines.now }
    ensures { IfOk result (Fails (facts_of facts.entry) bytes.now lines.now) }
{
    let behind = behind_max(rt, alloc, facts, bytes, lines)?;
    let circuit = circuit_line(facts, bytes, &lines.header, &lines.circuit);
    let first = earliest(circuit, earliest(lines.bad, behind));
    Ok(first.or(last_line(lines)))
}

/// The first line that fails of those that are tested once the line `max` is good, if it is.
fn behind_max<R: Threads + Sync>(
    rt: &R,
    alloc: Global,
    facts: TextFacts<'_>,
    bytes: &[u8],
    lines: &DocumentLines,
) -> Result<Option<u64>, AllocError>
    requires facts { AreFactsIn lines.now.header (facts_of facts) }
    requires lines { Reads bytes.now lines.now }
    ensures { IfOk result (FailsIn (facts_of facts.entry) lines.now) }
{
    let Some(asked) = asked_in(&lines.header) else {
        return Ok(None);
    };
    let _bytes = bytes.len();
    let system = facts.allowed_at(asked.kind, asked.version, asked.max, Side::System)?;
    let environment = facts.allowed_at(asked.kind, asked.version, asked.max, Side::Environment)?;
    let found = lines.header.found;
    let number = number_line(
        asked.verdict,
        found,
        system,
        environment,
        lines.verdict_line,
    );
    let logs = logs_in(rt, alloc, facts, bytes, lines, asked, system, environment)?;
    Ok(earliest(number, logs))
}

/// The first line at which the logs fail; without a whole header there are none.
fn logs_in<R: Threads + Sync>(
    rt: &R,
    alloc: Global,
    facts: TextFacts<'_>,
    bytes: &[u8],
    lines: &DocumentLines,
    asked: Asked,
    system: u32,
    environment: u32,
) -> Result<Option<u64>, AllocError>
    requires facts { AreFactsFor asked.version (facts_of facts) }
    requires lines { Reads bytes.now lines.now }
    requires system { system ≡ system_sizes (facts_of facts) asked }
    requires environment { environment ≡ environment_sizes (facts_of facts) asked }
    requires few { (system ≤ 8) × (environment ≤ 8) }
    ensures { IfOk result (LogsFailIn (facts_of facts.entry) lines.now asked) }
{
    let _bytes = bytes.len();
    let Some(limit) = lines.header.entries else {
        return Ok(None);
    };
    let wanted = Wanted {
        kind: asked.kind,
        version: asked.version,
        full: may_be_full(asked.verdict),
        limit,
        end: end_line(lines),
    };
    let order = order_of(asked.version, asked.verdict, asked.max, lines.header.found);
    let sizes = wanted_sizes(alloc, order, system, environment)?;
    let line = logs_line(rt, alloc, facts, wanted, &sizes, &lines.logs)?;
    Ok(line)
}

/// The line of a verdict whose number passes the allowed sizes, else that of a machine that was found and has more states.
fn number_line(
    verdict: Verdict,
    found: u32,
    system: u32,
    environment: u32,
    line: u64,
) -> Option<u64>
    requires { line + 4 < 2 ^ 64 }
    ensures { result ≡ line_of_number verdict found system environment line }
{
    if !is_allowed(verdict, system, environment) {
        return Some(line);
    }
    if found <= system {
        None
    } else {
        Some(line + 4)
    }
}

fn is_allowed(verdict: Verdict, system: u32, environment: u32) -> bool
    ensures { result ≡ number_allowed verdict system environment }
{
    match verdict.named() {
        Some(named) => named.size <= for_side(named.side, system, environment),
        None => true,
    }
}

/// The line behind the logs that were read.
fn end_line(lines: &DocumentLines) -> u64
    requires verdict { lines.now.verdict_line + 5 < 2 ^ 64 }
    requires logs { All IsReadable lines.now.logs }
    ensures { result ≡ line_of_end lines.now }
{
    let first = lines.verdict_line + if lines.header.found == 0 { 4 } else { 5 };
    line_behind(first, &lines.logs)
}

/// The line behind logs from a line on.
fn line_behind(first: u64, logs: &[LogPart]) -> u64
    requires { All IsReadable logs.now }
    ensures { result ≡ line_behind_logs first logs.now }
{
    let mut line = first;
    for log in logs {
        line = log.line + 1 + log.entries.len() as u64;
    }
    line
}

/// The verdict's line, where it names another log than the first that isn't closed.
fn last_line(lines: &DocumentLines) -> Option<u64>
    ensures { result ≡ line_of_last lines.now }
{
    let verdict = lines.header.verdict?;
    if names_open(verdict, &lines.logs) {
        None
    } else {
        Some(lines.verdict_line)
    }
}
