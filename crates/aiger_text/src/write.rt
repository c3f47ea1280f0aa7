ghost use Rattle.std.specs.Prelude.{◌≡◌, ◌<◌, ◌+◌, ◌^◌, ◌++◌, ◌∷◌, [], OnOk, OnErr, IfOk, map, length, decimal};
ghost use Rattle.aiger_text.specs.CircuitText.{circuit_text, text_of_lines, numbers_line, latch_line, gate_line, header_line, name_lines};
ghost use Rattle.aiger_text.specs.RoundTrip.{IsWritable, StatesOnly, written_file};

use crate::circuits::{Circuit, Gate, Latch};
use crate::laws::written_is_read;
use crate::symbols::Named;
use names_and_numbers::{Name, push_number};
use std::alloc::{AllocError, Global};

/// Appends the circuit's text: a line for the counts, for each input, latch, output and gate, and for each
/// name that it has. A reset of 0 is left out. After want of memory `out` is as before. What was written into an
/// empty vector states this circuit when it is read back, where a file can hold it.
pub fn write_circuit(circuit: &Circuit, out: &mut Vec<u8>) -> Result<(), AllocError>
    ensures ok { OnOk result (out.new.items ≡ out.old.items ++ circuit_text circuit.now) }
    ensures err { OnErr result (out.new.items ≡ out.old.items) }
    ensures read_back { OnOk result (out.old.items ≡ [] → IsWritable circuit.now → StatesOnly out.new.items (written_file circuit.now)) }
{
    let text = text_of(*out.allocator(), circuit)?;
    written_is_read(circuit);
    out.extend_from_slice(&text)
}

fn text_of(alloc: Global, circuit: &Circuit) -> Result<Vec<u8>, AllocError>
    ensures { IfOk result (λ text. text.items ≡ circuit_text circuit.now) }
{
    let mut text = Vec::new(alloc);
    push_header(&mut text, circuit)?;
    push_literals(&mut text, &circuit.inputs)?;
    push_latches(&mut text, &circuit.latches)?;
    push_literals(&mut text, &circuit.outputs)?;
    push_gates(&mut text, &circuit.gates)?;
    push_names(&mut text, Named::AnInput, &circuit.input_names)?;
    push_names(&mut text, Named::AnOutput, &circuit.output_names)?;
    Ok(text)
}

/// Appends a line of numbers, of which there is at least one.
fn push_line(text: &mut Vec<u8>, first: u64, others: &[u64]) -> Result<(), AllocError>
    ensures { OnOk result (text.new.items ≡ text.old.items ++ text_of_lines (numbers_line (first ∷ others.now) ∷ [])) }
{
    push_number(text, first)?;
    for number in others {
        text.push(b' ')?;
        push_number(text, *number)?;
    }
    text.push(b'\n')?;
    Ok(())
}

fn push_header(text: &mut Vec<u8>, circuit: &Circuit) -> Result<(), AllocError>
    ensures { OnOk result (text.new.items ≡ text.old.items ++ text_of_lines (header_line circuit.now 0 ∷ [])) }
{
    text.extend_from_slice(b"aag ")?;
    push_line(
        text,
        u64::from(circuit.variables),
        &[
            circuit.inputs.len() as u64,
            circuit.latches.len() as u64,
            circuit.outputs.len() as u64,
            circuit.gates.len() as u64,
        ],
    )
}

fn push_literals(text: &mut Vec<u8>, literals: &[u32]) -> Result<(), AllocError>
    ensures { OnOk result (text.new.items ≡ text.old.items ++ text_of_lines (map decimal literals.now)) }
{
    for literal in literals {
        push_line(text, u64::from(*literal), &[])?;
    }
    Ok(())
}

fn push_latch(text: &mut Vec<u8>, latch: &Latch) -> Result<(), AllocError>
    ensures { OnOk result (text.new.items ≡ text.old.items ++ text_of_lines (latch_line latch.now ∷ [])) }
{
    let literal = u64::from(latch.literal);
    let next = u64::from(latch.next);
    if latch.reset {
        push_line(text, literal, &[next, 1])
    } else {
        push_line(text, literal, &[next])
    }
}

fn push_latches(text: &mut Vec<u8>, latches: &[Latch]) -> Result<(), AllocError>
    ensures { OnOk result (text.new.items ≡ text.old.items ++ text_of_lines (map latch_line latches.now)) }
{
    for latch in latches {
        push_latch(text, latch)?;
    }
    Ok(())
}

fn push_gates(text: &mut Vec<u8>, gates: &[Gate]) -> Result<(), AllocError>
    ensures { OnOk result (text.new.items ≡ text.old.items ++ text_of_lines (map gate_line gates.now)) }
{
    for gate in gates {
        push_line(
            text,
            u64::from(gate.literal),
            &[u64::from(gate.left), u64::from(gate.right)],
        )?;
    }
    Ok(())
}

fn push_name(
    text: &mut Vec<u8>,
    named: Named,
    place: usize,
    name: &Option<Name>,
) -> Result<(), AllocError>
    ensures { OnOk result (text.new.items ≡ text.old.items ++ text_of_lines (name_lines named place (name.now ∷ []))) }
{
    if let Some(name) = name {
        text.push(named.letter())?;
        push_number(text, place as u64)?;
        text.push(b' ')?;
        text.extend_from_slice(name.bytes())?;
        text.push(b'\n')?;
    }
    Ok(())
}

fn push_names(text: &mut Vec<u8>, named: Named, names: &[Option<Name>]) -> Result<(), AllocError>
    ensures { OnOk result (text.new.items ≡ text.old.items ++ text_of_lines (name_lines named 0 names.now)) }
{
    for (place, name) in names.iter().enumerate() {
        push_name(text, named, place, name)?;
    }
    Ok(())
}
