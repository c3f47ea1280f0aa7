//! What a machine does in one state, as a branch of a `case`.

use crate::verilog::Names;
use gate_modules::Ports;
use letters_and_lassos::Letter;
use machine_table::{Answer, Edge, Part, Row, Text, put_cube};
use std::alloc::{AllocError, Global};

/// Puts the branch of a state. Outputs are false where nothing sets them.
pub(crate) fn put_state(
    alloc: Global,
    state: usize,
    row: &Row,
    ports: &Ports<'_>,
    names: &Names,
    out: &mut Text,
) -> Result<(), AllocError> {
    let front = Part::Word(&names.front);
    out.fill(
        "            {}{}: begin\n",
        &[front, Part::Number(state as u64)],
    );
    let always = written_always(row);
    put_written(always, ports, "                ", out);
    let answers = answers_of(alloc, &row.edges)?;
    let last = answers.len().saturating_sub(1);
    let indent = if last == 0 {
        "                "
    } else {
        "                    "
    };
    for (place, answer) in answers.iter().enumerate() {
        put_test(place, last, *answer, row, ports, out);
        put_written(Letter(answer.written.0 & !always.0), ports, indent, out);
        out.fill(
            "{}{} = {}{};\n",
            &[
                Part::Word(indent),
                Part::Word(&names.next_state),
                front,
                Part::Number(answer.next as u64),
            ],
        );
    }
    if last > 0 {
        out.put("                end\n");
    }
    out.put("            end\n");
    Ok(())
}

/// The outputs that are true whatever is read.
fn written_always(row: &Row) -> Letter {
    let mut written = u64::MAX;
    for edge in &row.edges {
        written &= edge.answer.written.0;
    }
    Letter(written)
}

fn put_written(written: Letter, ports: &Ports<'_>, indent: &str, out: &mut Text) {
    for (signal, output) in (0u32..64).zip(&ports.written) {
        if written.has(signal) {
            out.fill("{}{} = 1'b1;\n", &[Part::Word(indent), Part::Word(output)]);
        }
    }
}

/// The answers of some edges, each once; those with the same answer stand together.
fn answers_of(alloc: Global, edges: &[Edge]) -> Result<Vec<Answer>, AllocError> {
    let mut answers: Vec<Answer> = Vec::new(alloc);
    for edge in edges {
        if !answers.last().is_some_and(|last| last.is(edge.answer)) {
            answers.push(edge.answer)?;
        }
    }
    Ok(answers)
}

/// Puts the line that a branch begins with; a branch alone has none, and the last one holds for what is left.
fn put_test(
    place: usize,
    last: usize,
    answer: Answer,
    row: &Row,
    ports: &Ports<'_>,
    out: &mut Text,
) {
    if last == 0 {
        return;
    }
    if place == last {
        out.put("                end else begin\n");
        return;
    }
    out.put(if place == 0 {
        "                if ("
    } else {
        "                end else if ("
    });
    let mut is_first = true;
    for edge in row.edges.iter().filter(|edge| edge.answer.is(answer)) {
        out.put(if is_first { "" } else { " || " });
        put_cube(edge.cube, &ports.read, " && ", "1'b1", out);
        is_first = false;
    }
    out.put(") begin\n");
}
