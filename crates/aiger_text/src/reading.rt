//! A circuit's file as a whole.

ghost use Rattle.std.specs.Prelude.{◌≡◌, ℕ, ◌+◌, ◌^◌, ◌<◌, ◌≤◌, ◌⊎◌, IfOk, IfErr, None, length};
ghost use Rattle.text_limits.specs.declared.TheConstants.{CIRCUIT_VARIABLES};
ghost use Rattle.aiger_text.specs.declared.faults.CircuitFault.TheVariants.{NoMemory, Cycle};
ghost use Rattle.aiger_text.specs.CircuitType.{DependsOn, IsCircuit, IsOrder};
ghost use Rattle.aiger_text.specs.Walks.{Finds, IsFirstCycle};
ghost use Rattle.aiger_text.specs.CircuitFile.{States, IsFirstFault, circuit_parts, no_names, undefined_line, gate_line_number, circuit_of, file_of};
ghost use Rattle.aiger_text.specs.Statements.{stated, IsFaultOf};
ghost use Rattle.aiger_text.specs.Sound.{IsSoundDraft, total};
ghost use Rattle.aiger_text.specs.Labels.{named, HavePlaces};
ghost use Rattle.aiger_text.specs.Files.{shown_parts, IsRead};

use crate::bodies::{Statements, read_body};
use crate::circuits::Circuit;
use crate::faults::CircuitFault;
use crate::groups::first_on_cycle;
use crate::header::read_header;
use crate::symbols::{Ending, Labels, read_ending};
use crate::walks::{gate_places, sorted_places};
use crate::words::cut_at;
use std::alloc::{AllocError, Global};
use std::marker::Model;

/// What a circuit's file states.
#[derive(Debug, Drop)]
pub struct CircuitFile {
    pub circuit: Circuit,
    /// The place of the first byte behind the line `c`, where there is one.
    pub comment_at: Option<usize>,
    /// The number of the line `c`, or of the line behind the last.
    pub comment_line: u64,
    /// The line of the name of each input and then of each output, 0 where it has none.
    pub name_lines: Vec<u64>,
}

impl Model for CircuitFile {
    ghost use Rattle.aiger_text.specs.CircuitFile.{File};

    ghost Value = { File };

    ghost view = { λ f. record { circuit = f.circuit; comment_at = f.comment_at; comment_line = f.comment_line; name_lines = f.name_lines.items } };
}

/// What the lines of a file state.
#[derive(Drop)]
struct Parts<'a> {
    statements: Statements,
    ending: Ending<'a>,
}

/// No names yet, for the inputs, latches and outputs that were read.
fn blank_labels(alloc: Global, statements: &Statements) -> Result<Labels, AllocError>
    ensures none { IfOk result (λ labels. named labels ≡ no_names (stated statements.now)) }
    ensures places { IfOk result HavePlaces }
{
    Labels::new(
        alloc,
        statements.inputs.len(),
        statements.latches.len(),
        statements.outputs.len(),
    )
}

/// Reads the lines of a file.
fn read_parts(alloc: Global, bytes: &[u8]) -> Result<Parts<'_>, CircuitFault>
    ensures ok { IfOk result (IsRead bytes.now) }
    ensures lines { IfOk result (λ parts. total (stated parts.statements) < 2 ^ 64) }
    ensures err { IfErr result (IsFaultOf (circuit_parts bytes.now)) }
{
    let room = bytes.len() as u64 + 1;
    let Some((line, text)) = cut_at(bytes, b'\n') else {
        return match read_header(alloc, bytes, room) {
            Ok(_) => Err(CircuitFault::BadLine(1)),
            Err(fault) => Err(fault),
        };
    };
    let counts = match read_header(alloc, line, room) {
        Ok(counts) => counts,
        Err(fault) => return Err(fault),
    };
    let body = match read_body(alloc, counts, text) {
        Ok(body) => body,
        Err(fault) => return Err(fault),
    };
    let Ok(labels) = blank_labels(alloc, &body.statements) else {
        return Err(CircuitFault::NoMemory);
    };
    match read_ending(alloc, labels, body.number, body.rest) {
        Ok(ending) => Ok(Parts {
            statements: body.statements,
            ending,
        }),
        Err(fault) => Err(fault),
    }
}

/// The line of a gate.
fn gate_line_number(statements: &Statements, gate: usize) -> u64
    requires gate { gate < length statements.now.gates.items }
    requires lines { total (stated statements.now) < 2 ^ 64 }
    ensures { result ≡ gate_line_number (stated statements.now) gate }
{
    2 + statements.inputs.len() as u64
        + statements.latches.len() as u64
        + statements.outputs.len() as u64
        + gate as u64
}

/// The places of the gates in an order in which they can be worked out; refused at the first gate that depends on itself.
fn gate_order(alloc: Global, statements: &Statements) -> Result<Vec<usize>, CircuitFault>
    requires sound { IsSoundDraft (stated statements.now) }
    requires size { statements.now.counts.variables ≤ CIRCUIT_VARIABLES }
    requires lines { total (stated statements.now) < 2 ^ 64 }
    ensures order { IfOk result (λ order. IsOrder statements.now.gates.items order.items) }
    ensures acyclic { IfOk result (λ _. (v : ℕ) → DependsOn statements.now.gates.items v v → ⊥) }
    ensures err { IfErr result (λ fault. (fault ≡ NoMemory) ⊎ ((k : ℕ) × (IsFirstCycle statements.now.gates.items k) × (fault ≡ Cycle (gate_line_number (stated statements.now) k)))) }
{
    let Ok(places) = gate_places(
        alloc,
        statements.counts.variables as usize + 1,
        &statements.gates,
    ) else {
        return Err(CircuitFault::NoMemory);
    };
    let Ok(sorted) = sorted_places(alloc, &statements.gates, &places) else {
        return Err(CircuitFault::NoMemory);
    };
    if let Some(order) = sorted {
        return Ok(order);
    }
    let Ok(first) = first_on_cycle(alloc, &statements.gates, &places) else {
        return Err(CircuitFault::NoMemory);
    };
    match first {
        Some(gate) => Err(CircuitFault::Cycle(gate_line_number(statements, gate))),
        None => unreachable!(),
    }
}

/// Puts what was read together, of a file of this size.
fn finish(size: usize, parts: Parts<'_>, order: Vec<usize>) -> Result<CircuitFile, AllocError>
    requires circuit { IsCircuit (circuit_of (shown_parts parts)) }
    requires order { IsOrder parts.statements.gates.items order.items }
    ensures { IfOk result (λ f. f ≡ file_of size (shown_parts parts.entry)) }
{
    let Parts { statements, ending } = parts;
    let Ending {
        labels,
        number,
        comment,
    } = ending;
    let Labels {
        inputs,
        outputs,
        input_lines,
        latch_lines: _,
        output_lines,
    } = labels;
    let mut name_lines = input_lines;
    name_lines.extend_from_slice(&output_lines)?;
    let comment_at = match comment {
        Some(comment) => Some(size.saturating_sub(comment.len())),
        None => None,
    };
    Ok(CircuitFile {
        circuit: Circuit::of_ordered_gates(
            statements.counts.variables,
            statements.inputs,
            statements.latches,
            statements.outputs,
            statements.gates,
            inputs,
            outputs,
            order,
        ),
        comment_at,
        comment_line: number,
        name_lines,
    })
}

/// Reads a circuit's file, or says its first fault: those of the header and of the lines in order, then the first use
/// of a variable that no line defines, then the first gate that depends on itself.
///
/// It is linear in the bytes.
pub fn read_circuit(alloc: Global, bytes: &[u8]) -> Result<CircuitFile, CircuitFault>
    ensures states { IfOk result (States bytes.now) }
    ensures fault { IfErr result (λ fault. (fault ≡ NoMemory) ⊎ IsFirstFault bytes.now fault) }
{
    let parts = match read_parts(alloc, bytes) {
        Ok(parts) => parts,
        Err(fault) => return Err(fault),
    };
    match parts.statements.undefined_line() {
        Some(line) => return Err(CircuitFault::Undefined(line)),
        None => {}
    }
    let order = match gate_order(alloc, &parts.statements) {
        Ok(order) => order,
        Err(fault) => return Err(fault),
    };
    match finish(bytes.len(), parts, order) {
        Ok(file) => Ok(file),
        Err(_) => Err(CircuitFault::NoMemory),
    }
}
