//! What a machine does, as conditions on its state and its inputs.

use machine_table::{Cube, Machine, Part, Text};

/// Puts a line for each edge: where it is taken, the state that follows.
pub(crate) fn put_steps(machine: &Machine, inputs: &[String], out: &mut Text) {
    for (state, row) in machine.rows.iter().enumerate() {
        for edge in &row.edges {
            out.put("    ");
            put_condition(state, edge.cube, inputs, out);
            out.fill(" : {};\n", &[Part::Number(edge.answer.next as u64)]);
        }
    }
}

/// Puts the condition under which an output is true.
pub(crate) fn put_output(machine: &Machine, output: u32, inputs: &[String], out: &mut Text) {
    let mut is_first = true;
    for (state, row) in machine.rows.iter().enumerate() {
        if machine.is_moore() {
            if row.first_written().has(output) {
                out.put(if is_first { "" } else { " | " });
                out.fill("state = {}", &[Part::Number(state as u64)]);
                is_first = false;
            }
            continue;
        }
        for edge in row
            .edges
            .iter()
            .filter(|edge| edge.answer.written.has(output))
        {
            out.put(if is_first { "" } else { " | " });
            put_condition(state, edge.cube, inputs, out);
            is_first = false;
        }
    }
    if is_first {
        out.put("FALSE");
    }
}

fn put_condition(state: usize, cube: Cube, inputs: &[String], out: &mut Text) {
    out.fill("state = {}", &[Part::Number(state as u64)]);
    for (signal, input) in (0u32..64).zip(inputs) {
        match cube.asks(signal) {
            Some(true) => out.fill(" & {}", &[Part::Word(input)]),
            Some(false) => out.fill(" & !{}", &[Part::Word(input)]),
            None => {}
        }
    }
}
