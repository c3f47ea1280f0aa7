//! The circuit of a machine over classes of letters, made as the text of an AIGER file and read from it.

use crate::class_machines::ClassMachine;
use crate::functions::{Bit, Functions, code_bits, signals_of};
use aiger_text::{Circuit, CircuitFault, read_circuit};
use game_arena::{Meter, Stop};
use names_and_numbers::{Name, push_number};
use std::alloc::{AllocError, Global};

/// The literals of a circuit's functions: of the next state's bits, and of the signals that are written.
#[derive(Drop)]
struct Literalled {
    reads: usize,
    nexts: Vec<u32>,
    outputs: Vec<u32>,
}

/// A circuit may take so many times the steps that the games took, and at least so many.
const CIRCUIT_TIMES: u64 = 10;

const LEAST_STEPS: u64 = 10_000_000;

/// The circuit of a machine, whose inputs and outputs have these names. Its latches are the bits of the machine's state. It takes a step
/// for each class of each bit's function, and makes no table of letters. Where it has more variables than circuits have, it is stopped
/// for its bytes.
pub(crate) fn circuit_of(
    alloc: Global,
    machine: &ClassMachine,
    read_names: &[Name],
    write_names: &[Name],
    steps: u64,
) -> Result<Circuit, Stop> {
    let meter = Meter::new(steps.saturating_mul(CIRCUIT_TIMES).max(LEAST_STEPS));
    let text = text_of(alloc, machine, read_names, write_names, meter)?;
    match read_circuit(alloc, &text) {
        Ok(file) => Ok(file.circuit),
        Err(CircuitFault::NoMemory) => Err(Stop::NoMemory),
        Err(_) => Err(Stop::Bytes),
    }
}

fn text_of(
    alloc: Global,
    machine: &ClassMachine,
    read_names: &[Name],
    write_names: &[Name],
    meter: Meter,
) -> Result<Vec<u8>, Stop> {
    let mut functions = Functions::new(alloc, machine, meter)?;
    let literals = literals_of(alloc, machine, &mut functions)?;
    let mut text = Vec::new(alloc);
    push_head(&mut text, &literals, functions.gates.operands.len())?;
    push_body(&mut text, &literals, &functions)?;
    push_names(&mut text, b'i', read_names)?;
    push_names(&mut text, b'o', write_names)?;
    Ok(text)
}

fn literals_of(
    alloc: Global,
    machine: &ClassMachine,
    functions: &mut Functions,
) -> Result<Literalled, Stop> {
    let mut nexts = Vec::new(alloc);
    for bit in 0..code_bits(machine.states.len()) {
        nexts.push(functions.literal(Bit::Next(bit))?)?;
    }
    let mut outputs = Vec::new(alloc);
    for signal in signals_of(alloc, machine.player.writes())? {
        outputs.push(functions.literal(Bit::Written(signal))?)?;
    }
    Ok(Literalled {
        reads: signals_of(alloc, machine.player.reads())?.len(),
        nexts,
        outputs,
    })
}

/// Appends numbers, with a space before each but the first, and ends the line.
fn push_line(text: &mut Vec<u8>, numbers: &[usize]) -> Result<(), AllocError> {
    for (place, number) in numbers.iter().enumerate() {
        if place > 0 {
            text.push(b' ')?;
        }
        push_number(text, *number as u64)?;
    }
    text.push(b'\n')?;
    Ok(())
}

fn push_head(text: &mut Vec<u8>, literals: &Literalled, gates: usize) -> Result<(), AllocError> {
    let latches = literals.nexts.len();
    let variables = literals.reads.saturating_add(latches).saturating_add(gates);
    text.extend_from_slice(b"aag ")?;
    push_line(
        text,
        &[
            variables,
            literals.reads,
            latches,
            literals.outputs.len(),
            gates,
        ],
    )
}

fn push_body(
    text: &mut Vec<u8>,
    literals: &Literalled,
    functions: &Functions,
) -> Result<(), AllocError> {
    let mut variable = 1usize;
    for _ in 0..literals.reads {
        push_line(text, &[variable.saturating_mul(2)])?;
        variable = variable.saturating_add(1);
    }
    for next in &literals.nexts {
        push_line(text, &[variable.saturating_mul(2), *next as usize])?;
        variable = variable.saturating_add(1);
    }
    for output in &literals.outputs {
        push_line(text, &[*output as usize])?;
    }
    for gate in &functions.gates.operands {
        let own = variable.saturating_mul(2);
        push_line(text, &[own, gate.greater as usize, gate.lesser as usize])?;
        variable = variable.saturating_add(1);
    }
    Ok(())
}

/// Appends the lines of the names of inputs or outputs.
fn push_names(text: &mut Vec<u8>, kind: u8, names: &[Name]) -> Result<(), AllocError> {
    for (place, name) in (0u64..u64::MAX).zip(names) {
        text.push(kind)?;
        push_number(text, place)?;
        text.push(b' ')?;
        text.extend_from_slice(name.bytes())?;
        text.push(b'\n')?;
    }
    Ok(())
}
