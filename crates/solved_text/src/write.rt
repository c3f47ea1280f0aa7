//! A document's lines as they are written.
ghost use Rattle.std.specs.Prelude.{◌≡◌, ◌++◌, ◌∷◌, [], OnOk, OnErr, IfOk, decimal, flat_map, length, map};
ghost use Rattle.std.specs.List.{join_with_byte};
ghost use Rattle.aiger_text.specs.CircuitText.{numbers_line, text_of_lines};
ghost use Rattle.document_text.specs.Lines.{circuit_part, kind_line};
ghost use Rattle.solved_text.specs.Lines.{body_text, document_text, head_line, header_text, letters_word, log_part, refuted_line, rest_text, semantics_part, verdict_line};

use crate::documents::{Document, SizeLog, Verdict};
use crate::letters::Letters;
use aiger_text::{Circuit, write_circuit};
use letters_and_lassos::Kind;
use names_and_numbers::push_number;
use refutation_log::write_entries;
use std::alloc::{AllocError, Global};

/// Appends a document's lines: its circuit with the names that it has and the line `c`, where there is a circuit, the lines of the
/// header, and the logs and the annotation, or the line `end`. After want of memory `out` is as before.
pub fn write_solved(document: &Document, out: &mut Vec<u8>) -> Result<(), AllocError>
    ensures ok { OnOk result (out.new.items ≡ out.old.items ++ document_text document.now) }
    ensures err { OnErr result (out.new.items ≡ out.old.items) }
{
    let text = text_of(*out.allocator(), document)?;
    out.extend_from_slice(&text)
}

fn text_of(alloc: Global, document: &Document) -> Result<Vec<u8>, AllocError>
    ensures { IfOk result (λ text. text.items ≡ document_text document.now) }
{
    let mut text = Vec::new(alloc);
    push_circuit(&mut text, &document.circuit)?;
    push_body(&mut text, document)?;
    Ok(text)
}

/// Appends the lines behind the circuit.
fn push_body(text: &mut Vec<u8>, document: &Document) -> Result<(), AllocError>
    ensures { OnOk result (text.new.items ≡ text.old.items ++ body_text document.now) }
{
    push_header(text, document)?;
    push_rest(text, document)?;
    Ok(())
}

fn push_header(text: &mut Vec<u8>, document: &Document) -> Result<(), AllocError>
    ensures { OnOk result (text.new.items ≡ text.old.items ++ header_text document.now) }
{
    text.extend_from_slice(b"boundsyn 6\n")?;
    push_verdict(text, document.verdict)?;
    push_kind(text, document.kind)?;
    push_semantics(text, document.converted, document.kind)?;
    Ok(())
}

fn push_rest(text: &mut Vec<u8>, document: &Document) -> Result<(), AllocError>
    ensures { OnOk result (text.new.items ≡ text.old.items ++ rest_text document.now.verdict document.now.logs document.now.annotation) }
{
    match document.verdict {
        Verdict::Realizable(_) => push_shown(text, &document.logs, &document.annotation),
        Verdict::Unrealizable(_) => push_shown(text, &document.logs, &document.annotation),
        Verdict::Unknown => push_line(text, b"end"),
    }
}

/// Appends how many sizes are refuted, their logs and the annotation.
fn push_shown(text: &mut Vec<u8>, logs: &[SizeLog], annotation: &[u8]) -> Result<(), AllocError>
    ensures { OnOk result (text.new.items ≡ text.old.items ++ (text_of_lines (refuted_line (length logs.now) ∷ []) ++ (flat_map log_part logs.now ++ annotation.now))) }
{
    push_numbered(text, b"refuted ", logs.len() as u64)?;
    push_logs(text, logs)?;
    text.extend_from_slice(annotation)?;
    Ok(())
}

fn push_circuit(text: &mut Vec<u8>, circuit: &Option<Circuit>) -> Result<(), AllocError>
    ensures { OnOk result (text.new.items ≡ text.old.items ++ circuit_part circuit.now) }
{
    if let Some(circuit) = circuit {
        write_circuit(circuit, text)?;
        text.extend_from_slice(b"c\n")?;
    }
    Ok(())
}

fn push_line(text: &mut Vec<u8>, line: &[u8]) -> Result<(), AllocError>
    ensures { OnOk result (text.new.items ≡ text.old.items ++ text_of_lines (line.now ∷ [])) }
{
    text.extend_from_slice(line)?;
    text.push(b'\n')?;
    Ok(())
}

/// Appends a line of words, with the space behind them, and a number.
fn push_numbered(text: &mut Vec<u8>, words: &[u8], number: u64) -> Result<(), AllocError>
    ensures { OnOk result (text.new.items ≡ text.old.items ++ text_of_lines ((words.now ++ decimal number) ∷ [])) }
{
    text.extend_from_slice(words)?;
    push_number(text, number)?;
    text.push(b'\n')?;
    Ok(())
}

fn push_verdict(text: &mut Vec<u8>, verdict: Verdict) -> Result<(), AllocError>
    ensures { OnOk result (text.new.items ≡ text.old.items ++ text_of_lines (verdict_line verdict ∷ [])) }
{
    match verdict {
        Verdict::Realizable(n) => push_numbered(text, b"verdict realizable ", u64::from(n)),
        Verdict::Unrealizable(n) => push_numbered(text, b"verdict unrealizable ", u64::from(n)),
        Verdict::Unknown => push_line(text, b"verdict unknown"),
    }
}

fn push_kind(text: &mut Vec<u8>, kind: Kind) -> Result<(), AllocError>
    ensures { OnOk result (text.new.items ≡ text.old.items ++ text_of_lines (kind_line kind ∷ [])) }
{
    match kind {
        Kind::Mealy => push_line(text, b"kind Mealy"),
        Kind::Moore => push_line(text, b"kind Moore"),
    }
}

fn push_semantics(text: &mut Vec<u8>, converted: bool, kind: Kind) -> Result<(), AllocError>
    ensures { OnOk result (text.new.items ≡ text.old.items ++ semantics_part converted kind) }
{
    if !converted {
        return Ok(());
    }
    match kind {
        Kind::Mealy => push_line(text, b"semantics Moore"),
        Kind::Moore => push_line(text, b"semantics Mealy"),
    }
}

fn push_logs(text: &mut Vec<u8>, logs: &[SizeLog]) -> Result<(), AllocError>
    ensures { OnOk result (text.new.items ≡ text.old.items ++ flat_map log_part logs.now) }
{
    for log in logs {
        push_log(text, log)?;
    }
    Ok(())
}

fn push_log(text: &mut Vec<u8>, log: &SizeLog) -> Result<(), AllocError>
    ensures { OnOk result (text.new.items ≡ text.old.items ++ log_part log.now) }
{
    push_head(text, log)?;
    write_entries(&log.entries, text)?;
    Ok(())
}

fn push_head(text: &mut Vec<u8>, log: &SizeLog) -> Result<(), AllocError>
    ensures { OnOk result (text.new.items ≡ text.old.items ++ text_of_lines (head_line log.now.size log.now.letters log.now.vars log.now.base (length log.now.entries) ∷ [])) }
{
    text.extend_from_slice(b"log ")?;
    push_number(text, u64::from(log.size))?;
    text.push(b' ')?;
    push_letters(text, &log.letters)?;
    text.push(b' ')?;
    push_sizes(text, log.vars, log.base, log.entries.len() as u64)?;
    text.push(b'\n')?;
    Ok(())
}

/// Appends the numbers of variables, of base clauses and of entries.
fn push_sizes(text: &mut Vec<u8>, vars: u32, base: u64, count: u64) -> Result<(), AllocError>
    ensures { OnOk result (text.new.items ≡ text.old.items ++ numbers_line (vars ∷ base ∷ count ∷ [])) }
{
    push_number(text, u64::from(vars))?;
    text.push(b' ')?;
    push_number(text, base)?;
    text.push(b' ')?;
    push_number(text, count)?;
    Ok(())
}

fn push_letters(text: &mut Vec<u8>, letters: &Letters) -> Result<(), AllocError>
    ensures { OnOk result (text.new.items ≡ text.old.items ++ letters_word letters.now) }
{
    match letters {
        Letters::All => text.extend_from_slice(b"all"),
        Letters::Few(letters) => push_list(text, letters.numbers()),
    }
}

/// Appends numbers, with a comma between them.
fn push_list(text: &mut Vec<u8>, numbers: &[u32]) -> Result<(), AllocError>
    ensures { OnOk result (text.new.items ≡ text.old.items ++ join_with_byte 44 (map decimal numbers.now)) }
{
    match numbers {
        [] => Ok(()),
        [first, others @ ..] => push_numbers(text, *first, others),
    }
}

/// Appends numbers, of which there is at least one, with a comma between them.
fn push_numbers(text: &mut Vec<u8>, first: u32, others: &[u32]) -> Result<(), AllocError>
    ensures { OnOk result (text.new.items ≡ text.old.items ++ join_with_byte 44 (map decimal (first ∷ others.now))) }
{
    push_number(text, u64::from(first))?;
    for number in others {
        text.push(b',')?;
        push_number(text, u64::from(*number))?;
    }
    Ok(())
}
