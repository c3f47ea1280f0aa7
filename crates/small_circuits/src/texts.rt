//! The circuit of a net, made as the text of an AIGER file and read from it.

use aiger_text::{Circuit, CircuitFault, read_circuit};
use names_and_numbers::{Name, push_number};
use signal_nets::Net;
use std::alloc::{AllocError, Global};

/// The circuit of a net whose leaves are the inputs and the latches, with the inputs and outputs of a circuit, by their names and places, and
/// with latches that are unset at the start. None where the net isn't one of such a circuit.
pub fn circuit_of(
    alloc: Global,
    net: &Net,
    circuit: &Circuit,
) -> Result<Option<Circuit>, AllocError> {
    let text = text_of(alloc, net, circuit)?;
    match read_circuit(alloc, &text) {
        Ok(file) => Ok(Some(file.circuit)),
        Err(CircuitFault::NoMemory) => Err(AllocError),
        Err(_) => Ok(None),
    }
}

fn text_of(alloc: Global, net: &Net, circuit: &Circuit) -> Result<Vec<u8>, AllocError> {
    let inputs = circuit.inputs.len();
    let outputs = circuit.outputs.len();
    let mut text = Vec::new(alloc);
    push_head(&mut text, net, inputs, outputs)?;
    for input in 0..inputs {
        push_line(&mut text, &[literal(input.saturating_add(1))])?;
    }
    let first = inputs.saturating_add(1);
    for (latch, next) in (first..usize::MAX).zip(net.targets.iter().skip(outputs)) {
        push_line(&mut text, &[literal(latch), u64::from(*next)])?;
    }
    for output in net.targets.iter().take(outputs) {
        push_line(&mut text, &[u64::from(*output)])?;
    }
    push_gates(&mut text, net)?;
    push_names(&mut text, b'i', &circuit.input_names)?;
    push_names(&mut text, b'o', &circuit.output_names)?;
    Ok(text)
}

fn push_head(
    text: &mut Vec<u8>,
    net: &Net,
    inputs: usize,
    outputs: usize,
) -> Result<(), AllocError> {
    let latches = net.targets.len().saturating_sub(outputs);
    text.extend_from_slice(b"aag ")?;
    push_line(
        text,
        &[
            net.nodes().saturating_sub(1) as u64,
            inputs as u64,
            latches as u64,
            outputs as u64,
            net.gates() as u64,
        ],
    )
}

fn push_gates(text: &mut Vec<u8>, net: &Net) -> Result<(), AllocError> {
    for node in net.leaves()..net.nodes() {
        if let Some(operands) = net.operands(node) {
            let greater = operands.left.max(operands.right);
            let lesser = operands.left.min(operands.right);
            push_line(
                text,
                &[literal(node), u64::from(greater), u64::from(lesser)],
            )?;
        }
    }
    Ok(())
}

fn literal(variable: usize) -> u64 {
    (variable as u64).saturating_mul(2)
}

/// Appends numbers, with a space before each but the first, and ends the line.
fn push_line(text: &mut Vec<u8>, numbers: &[u64]) -> Result<(), AllocError> {
    for (place, number) in numbers.iter().enumerate() {
        if place > 0 {
            text.push(b' ')?;
        }
        push_number(text, *number)?;
    }
    text.push(b'\n')?;
    Ok(())
}

/// Appends the lines of the names that inputs or outputs have.
fn push_names(text: &mut Vec<u8>, kind: u8, names: &[Option<Name>]) -> Result<(), AllocError> {
    for (place, name) in (0u64..u64::MAX).zip(names) {
        if let Some(name) = name {
            text.push(kind)?;
            push_number(text, place)?;
            text.push(b' ')?;
            text.extend_from_slice(name.bytes())?;
            text.push(b'\n')?;
        }
    }
    Ok(())
}
