//! Rows of texts, each with what a library call makes of it: on standard input a heading `==== WAY NAME` and then the text, without the
//! end of its last line; on standard output the heading and what the way asks for, or the text's first fault. The ways: `tree` what is
//! read, `nodes` the list of formulas, `flat` all that a text is when it is expanded (`mealy` and `moore` with that kind given),
//! `automata` how large the automata of both sides are, over plain covers and over reduced ones,
//! `circuit` a circuit, written again, and where the comment and the names stand, `run BITS` its first output in each step where its
//! first input has these values, `document` whether a document is written as it was read, or its bad line, and `sizes SIDE LETTERS` how many
//! variables and base clauses of version 4 a side's sizes 1 to 3 have over these letters, and fewer than ten clauses themselves. What a command
//! prints is told by tools/rows.
#![tactic(auto)]

mod automata;
mod circuits;
mod lines;
mod sizes;
mod specs;
mod trees;

use crate::automata::push_automata;
use crate::circuits::{push_circuit, push_run};
use crate::lines::Lines;
use crate::sizes::push_sizes;
use crate::specs::{push_nodes, push_spec};
use crate::trees::push_tree;
use document_text::{DocumentFault, read_document, write_document};
use flat_text::expand_text;
use letters_and_lassos::Kind;
use spec_faults::SpecFault;
use std::alloc::AllocError;
use std::io::{BufRead, Write};
use text_limits::SMALL_LIMITS;
use tlsf_reader::read;

/// What a line begins with that is a heading.
const HEADING: &[u8] = b"==== ";

fn push_fault(lines: &mut Lines, fault: SpecFault) -> Result<(), AllocError> {
    let line = format!(in lines.alloc; "{fault}\n")?;
    lines.push(line.as_bytes())
}

/// What is read of a text.
fn push_read(lines: &mut Lines, text: &[u8]) -> Result<(), AllocError> {
    match read(lines.alloc, text) {
        Ok(tree) => push_tree(lines, &tree),
        Err(fault) => push_fault(lines, fault),
    }
}

/// What comes of a text that is expanded: the list of formulas alone, or all.
fn push_expanded(
    lines: &mut Lines,
    text: &[u8],
    kind: Option<Kind>,
    only_nodes: bool,
) -> Result<(), AllocError> {
    match expand_text(lines.alloc, text, kind, SMALL_LIMITS) {
        Ok(spec) if only_nodes => push_nodes(lines, &spec.formulas),
        Ok(spec) => push_spec(lines, &spec),
        Err(fault) => push_fault(lines, fault),
    }
}

/// Whether the document is written as it was read, or its bad line.
fn push_document(lines: &mut Lines, text: &[u8]) -> Result<(), AllocError> {
    match read_document(lines.alloc, text) {
        Ok(document) => {
            let mut written = Vec::new(lines.alloc);
            write_document(&document, &mut written)?;
            lines.push(if written.as_slice() == text {
                b"read and written\n"
            } else {
                b"written in another way\n"
            })
        }
        Err(DocumentFault::BadLine(line)) => {
            let refused = format!(in lines.alloc; "refused at line {line}\n")?;
            lines.push(refused.as_bytes())
        }
        Err(DocumentFault::NoMemory) => Err(AllocError),
    }
}

/// A heading, and what it asks for of its text.
fn push_row(lines: &mut Lines, heading: &[u8], text: &[u8]) -> Result<(), AllocError> {
    lines.push(HEADING)?;
    lines.push(heading)?;
    if heading.starts_with(b"tree ") {
        push_read(lines, text)
    } else if heading.starts_with(b"nodes ") {
        push_expanded(lines, text, None, true)
    } else if heading.starts_with(b"mealy ") {
        push_expanded(lines, text, Some(Kind::Mealy), false)
    } else if heading.starts_with(b"moore ") {
        push_expanded(lines, text, Some(Kind::Moore), false)
    } else if heading.starts_with(b"automata ") {
        push_automata(lines, text)
    } else if heading.starts_with(b"circuit ") {
        push_circuit(lines, text)
    } else if let Some(words) = heading.strip_prefix(b"sizes ") {
        push_sizes(lines, words, text)
    } else if heading.starts_with(b"document ") {
        push_document(lines, text)
    } else if let Some(digits) = heading.strip_prefix(b"run ") {
        push_run(lines, digits, text)
    } else {
        push_expanded(lines, text, None, false)
    }
}

fn main(rt: HostRuntime) -> anyhow::Result<()> {
    let alloc = rt.alloc();
    let mut input = rt.stdin().lock();
    let mut lines = Lines::new(alloc);
    let mut heading = Vec::new(alloc);
    let mut text = Vec::new(alloc);
    let mut line = Vec::new(alloc);
    for _ in 0..u64::MAX {
        let count = input.read_until(b'\n', &mut line)?;
        let next = line.strip_prefix(HEADING);
        if count == 0 || next.is_some() {
            if !heading.is_empty() {
                let _end = text.pop();
                push_row(&mut lines, &heading, &text)?;
            }
            heading.clear();
            text.clear();
            heading.extend_from_slice(next.unwrap_or(b""))?;
        } else {
            text.extend_from_slice(&line)?;
        }
        if count == 0 {
            break;
        }
        line.clear();
    }
    rt.stdout().write_all(&lines.bytes)?;
    Ok(())
}
