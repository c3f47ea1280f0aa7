//! Files in the ASCII format of AIGER.

ghost use Rattle.std.specs.Prelude.{◌<◌, IsTrue, length};
ghost use Rattle.aiger_text.specs.Step.{IsStateOf};

use crate::lines::Lines;
use aiger_text::{Circuit, CircuitFault, CircuitFile, CircuitState, read_circuit, write_circuit};
use std::alloc::AllocError;

fn push_fault(lines: &mut Lines, fault: CircuitFault) -> Result<(), AllocError> {
    let line = format!(in lines.alloc; "{fault:?}\n")?;
    lines.push(line.as_bytes())
}

/// The circuit of a file, written again, and where the comment and the names stand.
pub(crate) fn push_circuit(lines: &mut Lines, text: &[u8]) -> Result<(), AllocError> {
    match read_circuit(lines.alloc, text) {
        Ok(file) => push_file(lines, &file),
        Err(fault) => push_fault(lines, fault),
    }
}

fn push_file(lines: &mut Lines, file: &CircuitFile) -> Result<(), AllocError> {
    write_circuit(&file.circuit, &mut lines.bytes)?;
    let at = file.comment_at;
    let line = file.comment_line;
    let names = file.name_lines.as_slice();
    let places = format!(in lines.alloc; "comment {at:?}, line {line}, names {names:?}\n")?;
    lines.push(places.as_bytes())
}

/// The first output of a file's circuit in each step, where the first input has the values that the heading's digits give.
pub(crate) fn push_run(lines: &mut Lines, digits: &[u8], text: &[u8]) -> Result<(), AllocError> {
    match read_circuit(lines.alloc, text) {
        Ok(file) => push_outputs(lines, &file.circuit, digits),
        Err(fault) => push_fault(lines, fault),
    }
}

fn has_output(circuit: &Circuit) -> bool
    ensures { IsTrue result → 0 < length circuit.now.outputs }
{
    !circuit.outputs.is_empty()
}

fn has_input(circuit: &Circuit) -> bool
    ensures { IsTrue result → 0 < length circuit.now.inputs }
{
    !circuit.inputs.is_empty()
}

/// Gives the first input this value, where there is one.
fn give_input(circuit: &Circuit, state: &mut CircuitState, value: bool)
    requires { IsStateOf circuit.now state.old }
    ensures { IsStateOf circuit.now state.new }
{
    if has_input(circuit) {
        state.set_input(0, value);
    }
}

/// The first output after a step.
fn step_once(circuit: &Circuit, state: &mut CircuitState) -> bool
    requires fits { IsStateOf circuit.now state.old }
    requires output { 0 < length circuit.now.outputs }
    ensures { IsStateOf circuit.now state.new }
{
    circuit.step(state);
    state.output(0)
}

fn push_outputs(lines: &mut Lines, circuit: &Circuit, digits: &[u8]) -> Result<(), AllocError> {
    let mut state = CircuitState::new(lines.alloc, circuit)?;
    if has_output(circuit) {
        for &digit in digits {
            if digit != b'0' && digit != b'1' {
                break;
            }
            give_input(circuit, &mut state, digit == b'1');
            let output = step_once(circuit, &mut state);
            lines.push(if output { b"1" } else { b"0" })?;
        }
    }
    lines.push(b"\n")
}
