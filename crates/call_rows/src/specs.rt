//! Texts that are expanded.

use crate::lines::Lines;
use ltl_formula::{FormulaId, Formulas};
use names_and_numbers::Name;
use std::alloc::AllocError;
use tlsf_expand::Spec;

/// `word`, then a blank and a name for each signal.
fn push_names(lines: &mut Lines, word: &[u8], names: &[Name]) -> Result<(), AllocError> {
    lines.push(word)?;
    for name in names {
        lines.push_name(name)?;
    }
    lines.push(b"\n")
}

/// `word`, then a blank and an id for each formula.
fn push_section(lines: &mut Lines, word: &[u8], formulas: &[FormulaId]) -> Result<(), AllocError> {
    lines.push(word)?;
    for formula in formulas {
        let id = format!(in lines.alloc; " {}", formula.0)?;
        lines.push(id.as_bytes())?;
    }
    lines.push(b"\n")
}

/// A line for each node of the list, behind its id.
pub(crate) fn push_nodes(lines: &mut Lines, formulas: &Formulas) -> Result<(), AllocError> {
    for id in 0..formulas.len() {
        let node = formulas.node(FormulaId(id as u32));
        let line = format!(in lines.alloc; "{id} {node:?}\n")?;
        lines.push(line.as_bytes())?;
    }
    Ok(())
}

/// The kind, the signals, the list of formulas, the ids of each section's and that of the whole.
pub(crate) fn push_spec(lines: &mut Lines, spec: &Spec) -> Result<(), AllocError> {
    let kind = format!(in lines.alloc; "{:?}\n", spec.kind)?;
    lines.push(kind.as_bytes())?;
    push_names(lines, b"inputs", &spec.inputs)?;
    push_names(lines, b"outputs", &spec.outputs)?;
    push_nodes(lines, &spec.formulas)?;
    let sections = &spec.sections;
    push_section(lines, b"initially", &sections.initially)?;
    push_section(lines, b"preset", &sections.preset)?;
    push_section(lines, b"require", &sections.require)?;
    push_section(lines, b"assert", &sections.assert)?;
    push_section(lines, b"assume", &sections.assume)?;
    push_section(lines, b"guarantee", &sections.guarantee)?;
    let whole = format!(in lines.alloc; "whole {}\n", spec.whole.0)?;
    lines.push(whole.as_bytes())
}
