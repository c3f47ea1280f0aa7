ghost use Rattle.std.specs.Prelude.{◌≡◌, ℕ, ◌+◌, ◌*◌, ◌^◌, ◌<◌, ◌≤◌, ◌++◌, Some, IfOk, OnOk, All, length, map};
ghost use Rattle.std.specs.List.{range_with_len};
ghost use Rattle.text_limits.specs.declared.TheConstants.{SMALL_LIMITS};
ghost use Rattle.machine_model.specs.Machine.{IsMachine, size_of};
ghost use Rattle.aiger_text.specs.Circuit.{IsCircuitOfKind};
ghost use Rattle.gate_build.specs.Laws.{HasTheRunsOf, HasTheStatesOf};
ghost use Rattle.gate_build.specs.Limits.{IsSmallMachine};
ghost use Rattle.gate_build.specs.Table.{all_of, first_gate, gates_from, latches_with, literals_from};
ghost use Rattle.gate_build.specs.Bits.{AreFunctionsOf, IsSplit, bit_in, bit_of};
ghost use Rattle.gate_build.specs.Table as table;

use crate::gates::Operands;
use crate::tables::{Bit, latches_for, split};
use aiger_text::{Circuit, Gate, Latch};
use indexmap::IndexSet;
use machine_model::Machine;
use names_and_numbers::Name;
use std::alloc::{AllocError, Global};

/// The circuit of a machine of at most 8 states, 8 read and 8 written signals, whose inputs and outputs have these names. Its latches are the bits of
/// the machine's state, and its runs are the machine's. It takes time linear in the rows, a row for each code and each
/// letter that is read, times the bits of a row, those of the next state and those that are written.
pub fn circuit_of(
    alloc: Global,
    machine: &Machine,
    read_names: &[Name],
    write_names: &[Name],
) -> Result<Circuit, AllocError>
    requires small { IsSmallMachine machine.now }
    requires reads { length read_names.now ≡ machine.now.reads }
    requires writes { length write_names.now ≡ machine.now.writes }
    ensures value { IfOk result (λ c. c ≡ table.circuit_of machine.now read_names.now write_names.now) }
    ensures runs { IfOk result (λ c. HasTheRunsOf machine.now c) }
    ensures kind { IfOk result (λ c. IsCircuitOfKind machine.now.kind c) }
    ensures states { IfOk result (λ c. HasTheStatesOf machine.now c) }
    ensures variables { IfOk result (λ c. c.variables ≤ 67562) }
{
    let split_on = split_literals(alloc, machine)?;
    let functions = functions_of(alloc, machine, &split_on)?;
    put_together(alloc, machine, functions, read_names, write_names)
}

/// The literals on which functions are split: those of the latches, and of the inputs behind them.
fn split_literals(alloc: Global, machine: &Machine) -> Result<Vec<u32>, AllocError>
    requires { IsSmallMachine machine.now }
    ensures split { IfOk result (λ v. IsSplit machine.now v.items) }
    ensures made { IsMachine machine.now }
{
    let reads = machine.reads();
    let latches = latches_for(machine.size());
    let inputs = literals(alloc, 0, reads)?;
    let mut split_on = literals(alloc, reads, latches)?;
    split_on.extend_from_slice(&inputs)?;
    Ok(split_on)
}

/// The literals of the bits of next states and of those that are written, and the gates that build them.
#[derive(Drop)]
struct Functions {
    nexts: Vec<u32>,
    outputs: Vec<u32>,
    gates: Vec<Gate>,
}

fn functions_of(alloc: Global, machine: &Machine, split_on: &[u32]) -> Result<Functions, AllocError>
    requires small { IsSmallMachine machine.now }
    requires split { IsSplit machine.now split_on.now }
    ensures { IfOk result (AreFunctionsOf machine.now) }
{
    let reads = machine.reads();
    let latches = latches_for(machine.size());
    let first = reads + latches + 1;
    let mut gates = IndexSet::new(alloc);
    let nexts = all(
        first,
        &mut gates,
        machine,
        split_on,
        Part::AllNexts,
        latches,
        alloc,
    )?;
    let outputs = all(
        first,
        &mut gates,
        machine,
        split_on,
        Part::AllWritten,
        machine.writes(),
        alloc,
    )?;
    let made = gate_list(alloc, first, gates.as_slice())?;
    Ok(Functions {
        nexts,
        outputs,
        gates: made,
    })
}

/// The circuit of a machine's functions.
fn put_together(
    alloc: Global,
    machine: &Machine,
    functions: Functions,
    read_names: &[Name],
    write_names: &[Name],
) -> Result<Circuit, AllocError>
    requires small { IsSmallMachine machine.now }
    requires reads { length read_names.now ≡ machine.now.reads }
    requires writes { length write_names.now ≡ machine.now.writes }
    requires functions { AreFunctionsOf machine.now functions }
    ensures { IfOk result (λ c. c ≡ table.circuit_of machine.now read_names.now write_names.now) }
{
    let reads = machine.reads();
    let latches = latches_for(machine.size());
    let Functions {
        nexts,
        outputs,
        gates,
    } = functions;
    Circuit::of_sorted_gates(
        alloc,
        reads + latches + gates.len() as u32,
        literals(alloc, 0, reads)?,
        latch_list(alloc, reads, &nexts)?,
        outputs,
        gates,
        names(alloc, read_names)?,
        names(alloc, write_names)?,
    )
}

/// A part of a machine's table.
#[derive(Clone, Copy)]
enum Part {
    AllNexts,
    AllWritten,
}

impl Part {
    fn bit(self, place: u32) -> Bit
        ensures { result ≡ bit_in self place }
    {
        match self {
            Part::AllNexts => Bit::Next(place),
            Part::AllWritten => Bit::Written(place),
        }
    }
}

/// The literals of `count` variables behind `from` others.
fn literals(alloc: Global, from: u32, count: u32) -> Result<Vec<u32>, AllocError>
    requires { from + count ≤ 2 ^ 20 }
    ensures { IfOk result (λ v. v.items ≡ literals_from from count) }
{
    let mut literals = Vec::new(alloc);
    for place in 0..count {
        literals.push(2 * (from + place + 1))?;
    }
    Ok(literals)
}

/// The literals of the first bits of a part of the table, in order.
fn all(
    first: u32,
    gates: &mut IndexSet<Operands>,
    machine: &Machine,
    split_on: &[u32],
    part: Part,
    count: u32,
    alloc: Global,
) -> Result<Vec<u32>, AllocError>
    requires few { size_of machine.now ≤ SMALL_LIMITS.machine }
    requires first { first ≡ first_gate machine.now }
    requires low { first ≤ 12 }
    requires split { IsSplit machine.now split_on.now }
    requires room { length gates.old.keys + count * 2 ^ 13 ≤ 2 ^ 20 }
    ensures value { IfOk result (λ v. all_of machine.now (λ j. bit_of machine.now (bit_in part j)) count gates.old.keys ≡ record { gates = gates.new.keys; literals = v.items }) }
    ensures grown { OnOk result (length gates.new.keys ≤ length gates.old.keys + count * 2 ^ 13) }
{
    let mut literals = Vec::new(alloc);
    for place in 0..count {
        literals.push(split(first, gates, machine, part.bit(place), split_on, 0, 0)?)?;
    }
    Ok(literals)
}

/// The gates of these operands, the first one having the variable `first`.
fn gate_list(alloc: Global, first: u32, operands: &[Operands]) -> Result<Vec<Gate>, AllocError>
    requires { first + length operands.now ≤ 2 ^ 30 }
    ensures { IfOk result (λ v. v.items ≡ gates_from first operands.now) }
{
    let mut gates = Vec::with_capacity(alloc, operands.len())?;
    for (place, pair) in operands.iter().enumerate() {
        gates.push(Gate {
            literal: 2 * (first + place as u32),
            left: pair.greater,
            right: pair.lesser,
        })?;
    }
    Ok(gates)
}

/// The latches behind `from` variables, with these next literals.
fn latch_list(alloc: Global, from: u32, nexts: &[u32]) -> Result<Vec<Latch>, AllocError>
    requires { from + length nexts.now ≤ 2 ^ 20 }
    ensures { IfOk result (λ v. v.items ≡ latches_with from nexts.now) }
{
    let mut latches = Vec::with_capacity(alloc, nexts.len())?;
    for (place, next) in nexts.iter().enumerate() {
        latches.push(Latch {
            literal: 2 * (from + place as u32 + 1),
            next: *next,
            reset: false,
        })?;
    }
    Ok(latches)
}

/// Each name at its place.
fn names(alloc: Global, names: &[Name]) -> Result<Vec<Option<Name>>, AllocError>
    ensures { IfOk result (λ v. v.items ≡ map (λ name. Some name) names.now) }
{
    let mut named = Vec::with_capacity(alloc, names.len())?;
    for name in names {
        named.push(Some(name.clone()?))?;
    }
    Ok(named)
}
