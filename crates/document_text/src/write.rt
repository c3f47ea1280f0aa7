//! A document's lines as they are written.
ghost use Rattle.std.specs.Prelude.{◌≡◌, ◌++◌, ◌∷◌, [], OnOk, OnErr, IfOk, IfSome, decimal, length};
ghost use Rattle.std.specs.List.{flat_map};
ghost use Rattle.aiger_text.specs.CircuitText.{numbers_line, text_of_lines};
ghost use Rattle.aiger_text.specs.RoundTrip.{IsWritable};
ghost use Rattle.document_text.specs.Lines.{log_words as log_front, verdict_line, kind_line, entries_line, found_lines, head_line, part_text, circuit_part, header_text, body_text, document_text};
ghost use Rattle.document_text.specs.WellFormed.{IsWellFormed};
ghost use Rattle.document_text.specs.States.{States, numbered};

use crate::documents::{Document, LogPart, Verdict};
use crate::laws::written_is_read;
use crate::words::{machine_words, unknown_words};
use aiger_text::{Circuit, write_circuit};
use letters_and_lassos::{Kind, Side};
use names_and_numbers::push_number;
use refutation_log::write_entries;
use std::alloc::{AllocError, Global};

/// Appends a document's lines: its circuit with the names that it has and the line `c`, where there is a circuit, the verdict and
/// the other lines of the header, each log's head and entries, and the line `end`. After want of memory `out` is as before.
///
/// What was written into an empty vector states, when it is read back, this document with the numbers of its lines, where it is
/// well formed and a file can hold its circuit.
pub fn write_document(document: &Document, out: &mut Vec<u8>) -> Result<(), AllocError>
    ensures ok { OnOk result (out.new.items ≡ out.old.items ++ document_text document.now) }
    ensures err { OnErr result (out.new.items ≡ out.old.items) }
    ensures read_back { OnOk result (out.old.items ≡ [] → IsWellFormed document.now → IfSome document.now.circuit IsWritable
        → States out.new.items (numbered document.now)) }
{
    let text = text_of(*out.allocator(), document)?;
    written_is_read(document);
    out.extend_from_slice(&text)
}

fn text_of(alloc: Global, document: &Document) -> Result<Vec<u8>, AllocError>
    ensures { IfOk result (λ text. text.items ≡ document_text document.now) }
{
    let mut text = Vec::new(alloc);
    push_circuit(&mut text, &document.circuit)?;
    push_body(&mut text, document)?;
    Ok(text)
}

/// Appends the lines behind the circuit.
fn push_body(text: &mut Vec<u8>, document: &Document) -> Result<(), AllocError>
    ensures { OnOk result (text.new.items ≡ text.old.items ++ body_text document.now) }
{
    push_header(text, document)?;
    push_logs(text, &document.logs)?;
    push_line(text, b"end")?;
    Ok(())
}

fn push_header(text: &mut Vec<u8>, document: &Document) -> Result<(), AllocError>
    ensures { OnOk result (text.new.items ≡ text.old.items ++ header_text document.now) }
{
    push_numbered(text, b"boundsyn ", u64::from(document.version))?;
    push_verdict(text, document.verdict)?;
    push_kind(text, document.kind)?;
    push_numbered(text, b"max ", u64::from(document.max))?;
    push_limit(text, document.entries)?;
    push_found(text, document.found)?;
    Ok(())
}

fn push_circuit(text: &mut Vec<u8>, circuit: &Option<Circuit>) -> Result<(), AllocError>
    ensures { OnOk result (text.new.items ≡ text.old.items ++ circuit_part circuit.now) }
{
    if let Some(circuit) = circuit {
        write_circuit(circuit, text)?;
        text.extend_from_slice(b"c\n")?;
    }
    Ok(())
}

fn push_line(text: &mut Vec<u8>, line: &[u8]) -> Result<(), AllocError>
    ensures { OnOk result (text.new.items ≡ text.old.items ++ text_of_lines (line.now ∷ [])) }
{
    text.extend_from_slice(line)?;
    text.push(b'\n')?;
    Ok(())
}

/// Appends a line of words, with the space behind them, and a number.
fn push_numbered(text: &mut Vec<u8>, words: &[u8], number: u64) -> Result<(), AllocError>
    ensures { OnOk result (text.new.items ≡ text.old.items ++ text_of_lines ((words.now ++ decimal number) ∷ [])) }
{
    text.extend_from_slice(words)?;
    push_number(text, number)?;
    text.push(b'\n')?;
    Ok(())
}

fn log_words(side: Side) -> &'static [u8]
    ensures { result.now ≡ log_front side }
{
    match side {
        Side::System => b"log system ",
        Side::Environment => b"log environment ",
    }
}

fn push_verdict(text: &mut Vec<u8>, verdict: Verdict) -> Result<(), AllocError>
    ensures { OnOk result (text.new.items ≡ text.old.items ++ text_of_lines (verdict_line verdict ∷ [])) }
{
    match verdict {
        Verdict::Machine {
            side,
            states,
            least,
        } => push_numbered(text, machine_words(side, least), u64::from(states)),
        Verdict::Unknown(None) => push_line(text, b"verdict unknown sizes"),
        Verdict::Unknown(Some(first)) => push_numbered(
            text,
            unknown_words(first.side),
            u64::from(first.size),
        ),
    }
}

fn push_kind(text: &mut Vec<u8>, kind: Kind) -> Result<(), AllocError>
    ensures { OnOk result (text.new.items ≡ text.old.items ++ text_of_lines (kind_line kind ∷ [])) }
{
    match kind {
        Kind::Mealy => push_line(text, b"kind Mealy"),
        Kind::Moore => push_line(text, b"kind Moore"),
    }
}

fn push_limit(text: &mut Vec<u8>, entries: Option<u64>) -> Result<(), AllocError>
    ensures { OnOk result (text.new.items ≡ text.old.items ++ text_of_lines (entries_line entries ∷ [])) }
{
    match entries {
        Some(most) => push_numbered(text, b"entries ", most),
        None => push_line(text, b"entries none"),
    }
}

fn push_found(text: &mut Vec<u8>, found: u32) -> Result<(), AllocError>
    ensures { OnOk result (text.new.items ≡ text.old.items ++ text_of_lines (found_lines found)) }
{
    if found > 0 {
        push_numbered(text, b"found ", u64::from(found))?;
    }
    Ok(())
}

fn push_logs(text: &mut Vec<u8>, logs: &[LogPart]) -> Result<(), AllocError>
    ensures { OnOk result (text.new.items ≡ text.old.items ++ flat_map part_text logs.now) }
{
    for log in logs {
        push_log(text, log)?;
    }
    Ok(())
}

fn push_log(text: &mut Vec<u8>, log: &LogPart) -> Result<(), AllocError>
    ensures { OnOk result (text.new.items ≡ text.old.items ++ part_text log.now) }
{
    push_head(text, log)?;
    write_entries(&log.entries, text)?;
    Ok(())
}

fn push_head(text: &mut Vec<u8>, log: &LogPart) -> Result<(), AllocError>
    ensures { OnOk result (text.new.items ≡ text.old.items ++ text_of_lines (head_line log.now.side log.now.size log.now.vars log.now.base (length log.now.entries) ∷ [])) }
{
    text.extend_from_slice(log_words(log.side))?;
    push_numbers(
        text,
        u64::from(log.size),
        &[u64::from(log.vars), log.base, log.entries.len() as u64],
    )?;
    text.push(b'\n')?;
    Ok(())
}

/// Appends numbers, of which there is at least one, with a space between them.
fn push_numbers(text: &mut Vec<u8>, first: u64, others: &[u64]) -> Result<(), AllocError>
    ensures { OnOk result (text.new.items ≡ text.old.items ++ numbers_line (first ∷ others.now)) }
{
    push_number(text, first)?;
    for number in others {
        text.push(b' ')?;
        push_number(text, *number)?;
    }
    Ok(())
}
