//! The lines of a witness up to its last part.
ghost use Rattle.std.specs.Prelude.{◌≡◌, ◌<◌, ◌^◌, [], IfOk, Some};
ghost use Rattle.std.specs.Option.{option_copied};
ghost use Rattle.witness_text.specs.Forms.{always_in, gate_in, latch_in, part_in};
ghost use Rattle.witness_text.specs.Shown.{shown_statement};
ghost use Rattle.witness_text.specs.Statement.{group, lines_of, no_statement, one_line as one_line_of, single, statement_behind as statement_of_counts, statement_in, values_from};

use crate::forms::{next_always, next_counts, next_gate, next_latch, next_part};
use crate::lines::WitnessCounts;
use std::alloc::{AllocError, Global};
use truth_witness::{Operands, Part};

/// What was read of the lines up to the last part, and the bytes behind them, where none is missing.
#[derive(Drop)]
pub struct Statement<'a> {
    pub counts: Option<WitnessCounts>,
    pub latches: Vec<u32>,
    pub gates: Vec<Operands>,
    pub always: Option<u32>,
    pub parts: Vec<Part>,
    pub rest: Option<&'a [u8]>,
}

impl Statement<'_> {
    fn none(alloc: Global) -> Self
        ensures { shown_statement result ≡ no_statement }
    {
        Statement {
            counts: None,
            latches: Vec::new(alloc),
            gates: Vec::new(alloc),
            always: None,
            parts: Vec::new(alloc),
            rest: None,
        }
    }

    /// How many lines were read.
    pub(crate) fn lines(&self) -> u64
        requires { lines_of (shown_statement self.now) < 2 ^ 64 }
        ensures { result ≡ lines_of (shown_statement self.now) }
    {
        one_line(&self.counts)
            + self.latches.len() as u64
            + self.gates.len() as u64
            + one_line(&self.always)
            + self.parts.len() as u64
    }
}

fn one_line<T>(value: &Option<T>) -> u64
    ensures { result ≡ one_line_of value.now }
{
    match value {
        Some(_) => 1,
        None => 0,
    }
}

/// Reads the lines up to the last part.
pub(crate) fn read_statement(alloc: Global, bytes: &[u8]) -> Result<Statement<'_>, AllocError>
    ensures { IfOk result (λ s. shown_statement s ≡ statement_in bytes.now) }
{
    match next_counts(alloc, bytes)? {
        Some((counts, rest)) => statement_behind(alloc, counts, rest),
        None => Ok(Statement::none(alloc)),
    }
}

/// Reads so many lines of each kind.
fn statement_behind(
    alloc: Global,
    counts: WitnessCounts,
    bytes: &[u8],
) -> Result<Statement<'_>, AllocError>
    ensures { IfOk result (λ s. shown_statement s ≡ statement_of_counts counts bytes.now) }
{
    let (latches, rest) = read_latches(alloc, counts.latches, Some(bytes))?;
    let (gates, rest) = read_gates(alloc, counts.gates, rest)?;
    let (always, rest) = read_always(alloc, rest)?;
    let (parts, rest) = read_parts(alloc, counts.parts, rest)?;
    Ok(Statement {
        counts: Some(counts),
        latches,
        gates,
        always,
        parts,
        rest,
    })
}

/// The lines of so many latches, and the bytes behind them; none where a line is missing.
fn read_latches(
    alloc: Global,
    count: u32,
    bytes: Option<&[u8]>,
) -> Result<(Vec<u32>, Option<&[u8]>), AllocError>
    ensures { IfOk result (λ read. (read.0.items, option_copied read.1) ≡ group latch_in count (option_copied bytes.entry)) }
{
    match bytes {
        Some(bytes) => take_latches(alloc, count as usize, bytes),
        None => Ok((Vec::new(alloc), None)),
    }
}

fn take_latches(
    alloc: Global,
    count: usize,
    bytes: &[u8],
) -> Result<(Vec<u32>, Option<&[u8]>), AllocError>
    ensures { IfOk result (λ read. (read.0.items, option_copied read.1) ≡ values_from latch_in [] count bytes.now) }
{
    let mut latches = Vec::new(alloc);
    let mut rest = bytes;
    while latches.len() < count {
        let Some((next, behind)) = next_latch(alloc, rest)? else {
            return Ok((latches, None));
        };
        latches.push(next)?;
        rest = behind;
    }
    Ok((latches, Some(rest)))
}

fn read_gates(
    alloc: Global,
    count: u32,
    bytes: Option<&[u8]>,
) -> Result<(Vec<Operands>, Option<&[u8]>), AllocError>
    ensures { IfOk result (λ read. (read.0.items, option_copied read.1) ≡ group gate_in count (option_copied bytes.entry)) }
{
    match bytes {
        Some(bytes) => take_gates(alloc, count as usize, bytes),
        None => Ok((Vec::new(alloc), None)),
    }
}

fn take_gates(
    alloc: Global,
    count: usize,
    bytes: &[u8],
) -> Result<(Vec<Operands>, Option<&[u8]>), AllocError>
    ensures { IfOk result (λ read. (read.0.items, option_copied read.1) ≡ values_from gate_in [] count bytes.now) }
{
    let mut gates = Vec::new(alloc);
    let mut rest = bytes;
    while gates.len() < count {
        let Some((gate, behind)) = next_gate(alloc, rest)? else {
            return Ok((gates, None));
        };
        gates.push(gate)?;
        rest = behind;
    }
    Ok((gates, Some(rest)))
}

fn read_always(
    alloc: Global,
    bytes: Option<&[u8]>,
) -> Result<(Option<u32>, Option<&[u8]>), AllocError>
    ensures { IfOk result (λ read. (read.0, option_copied read.1) ≡ single always_in (option_copied bytes.entry)) }
{
    match bytes {
        Some(bytes) => take_always(alloc, bytes),
        None => Ok((None, None)),
    }
}

fn take_always(alloc: Global, bytes: &[u8]) -> Result<(Option<u32>, Option<&[u8]>), AllocError>
    ensures { IfOk result (λ read. (read.0, option_copied read.1) ≡ single always_in (Some bytes.now)) }
{
    match next_always(alloc, bytes)? {
        Some((always, rest)) => Ok((Some(always), Some(rest))),
        None => Ok((None, None)),
    }
}

fn read_parts(
    alloc: Global,
    count: u32,
    bytes: Option<&[u8]>,
) -> Result<(Vec<Part>, Option<&[u8]>), AllocError>
    ensures { IfOk result (λ read. (read.0.items, option_copied read.1) ≡ group part_in count (option_copied bytes.entry)) }
{
    match bytes {
        Some(bytes) => take_parts(alloc, count as usize, bytes),
        None => Ok((Vec::new(alloc), None)),
    }
}

fn take_parts(
    alloc: Global,
    count: usize,
    bytes: &[u8],
) -> Result<(Vec<Part>, Option<&[u8]>), AllocError>
    ensures { IfOk result (λ read. (read.0.items, option_copied read.1) ≡ values_from part_in [] count bytes.now) }
{
    let mut parts = Vec::new(alloc);
    let mut rest = bytes;
    while parts.len() < count {
        let Some((part, behind)) = next_part(alloc, rest)? else {
            return Ok((parts, None));
        };
        parts.push(part)?;
        rest = behind;
    }
    Ok((parts, Some(rest)))
}
