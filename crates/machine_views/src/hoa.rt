//! A machine as an automaton in the Hanoi Omega-Automata format, version 1.

use letters_and_lassos::Letter;
use machine_table::{Answer, Cube, Machine, Part, Row, ShowFault, Text, escaped, has_twice};
use std::alloc::Global;

/// A text between quotes.
const SIGNS: [(char, &str); 2] = [('"', "\\\""), ('\\', "\\\\")];

/// Puts the automaton that accepts what the machine does: its propositions are the inputs and then the outputs, which the machine controls. Refused
/// are two signals with the same name.
pub(crate) fn put_hoa(alloc: Global, machine: &Machine, out: &mut Text) -> Result<(), ShowFault> {
    if has_twice(&machine.inputs.labels, &machine.outputs.labels) {
        return Err(ShowFault::SameNames);
    }
    let inputs = machine.inputs.labels.len();
    let outputs = machine.outputs.labels.len();
    out.fill(
        "HOA: v1\ntool: \"boundsyn-show\"\nStates: {}\nStart: 0\nAP: {}",
        &[
            Part::Number(machine.rows.len() as u64),
            Part::Number(inputs.saturating_add(outputs) as u64),
        ],
    );
    put_names(&escaped(alloc, &machine.inputs.labels, &SIGNS)?, out);
    put_names(&escaped(alloc, &machine.outputs.labels, &SIGNS)?, out);
    out.put("\ncontrollable-AP:");
    for output in 0..outputs {
        out.fill(" {}", &[Part::Number(inputs.saturating_add(output) as u64)]);
    }
    out.put("\nacc-name: all\nAcceptance: 0 t\n");
    out.put("properties: trans-labels explicit-labels state-acc deterministic\n--BODY--\n");
    for (state, row) in machine.rows.iter().enumerate() {
        out.fill("State: {}\n", &[Part::Number(state as u64)]);
        put_edges(row, inputs, outputs, out);
    }
    out.put("--END--\n");
    Ok(())
}

fn put_names(labels: &[String], out: &mut Text) {
    for label in labels {
        out.fill(" \"{}\"", &[Part::Word(label)]);
    }
}

/// Puts an edge for each answer, so that no two of a state have a letter in common.
fn put_edges(row: &Row, inputs: usize, outputs: usize, out: &mut Text) {
    for (place, edge) in row.edges.iter().enumerate() {
        let answer = edge.answer;
        let mut earlier = row.edges.iter().take(place);
        if earlier.any(|other| other.answer.is(answer)) {
            continue;
        }
        out.put("[");
        let has_cube = put_cubes(row, answer, inputs, out);
        put_letter(answer.written, inputs, outputs, has_cube, out);
        out.fill("] {}\n", &[Part::Number(answer.next as u64)]);
    }
}

/// Puts the cubes of letters with that answer, several of them in parentheses, and says whether they ask for anything.
fn put_cubes(row: &Row, answer: Answer, inputs: usize, out: &mut Text) -> bool {
    let same = row.edges.iter().filter(|edge| edge.answer.is(answer));
    let has_several = same.count() > 1;
    out.put(if has_several { "(" } else { "" });
    let mut has_any = false;
    for edge in row.edges.iter().filter(|edge| edge.answer.is(answer)) {
        out.put(if has_any { " | " } else { "" });
        has_any = put_cube(edge.cube, inputs, out) || has_any;
    }
    out.put(if has_several { ")" } else { "" });
    has_any
}

/// Puts what is asked of the inputs, and says whether that is anything.
fn put_cube(cube: Cube, inputs: usize, out: &mut Text) -> bool {
    let mut has_any = false;
    for signal in 0u32..64 {
        if let (Some(is_wanted), true) = (cube.asks(signal), (signal as usize) < inputs) {
            put_literal(signal as usize, is_wanted, has_any, out);
            has_any = true;
        }
    }
    has_any
}

fn put_letter(letter: Letter, inputs: usize, outputs: usize, has_cube: bool, out: &mut Text) {
    let mut has_any = has_cube;
    for signal in 0u32..64 {
        if (signal as usize) < outputs {
            let place = inputs.saturating_add(signal as usize);
            put_literal(place, letter.has(signal), has_any, out);
            has_any = true;
        }
    }
    if !has_any {
        out.put("t");
    }
}

fn put_literal(place: usize, is_wanted: bool, has_any: bool, out: &mut Text) {
    out.put(if has_any { "&" } else { "" });
    out.put(if is_wanted { "" } else { "!" });
    out.put_number(place as u64);
}
