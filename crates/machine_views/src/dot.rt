//! A machine as a graph for Graphviz.

use letters_and_lassos::Letter;
use machine_table::{Edge, Machine, Part, Row, Text, escaped, put_cube, put_letter};
use std::alloc::{AllocError, Global};

/// A text as Graphviz reads it between quotes, where `&` could begin the name of a character.
const SIGNS: [(char, &str); 3] = [('&', "&amp;"), ('"', "\\\""), ('\\', "\\\\")];

/// The labels of a machine's signals, as they stand between quotes.
#[derive(Drop)]
struct Labels {
    is_moore: bool,
    inputs: Vec<String>,
    outputs: Vec<String>,
}

/// States are nodes, and an arrow from a point marks the start. From a state to each that may follow leads one arrow, with a line for each
/// cube of input letters; what is written stands behind that, or in the state where it is of the state alone.
pub(crate) fn put_dot(alloc: Global, machine: &Machine, out: &mut Text) -> Result<(), AllocError> {
    let labels = Labels {
        is_moore: machine.is_moore(),
        inputs: escaped(alloc, &machine.inputs.labels, &SIGNS)?,
        outputs: escaped(alloc, &machine.outputs.labels, &SIGNS)?,
    };
    out.put("digraph machine {\n    node [shape=circle];\n");
    out.put("    start [shape=point];\n    start -> s0;\n");
    for (state, row) in machine.rows.iter().enumerate() {
        labels.put_node(state, row.first_written(), out);
        labels.put_arrows(state, row, out);
    }
    out.put("}\n");
    Ok(())
}

impl Labels {
    fn put_node(&self, state: usize, written: Letter, out: &mut Text) {
        let state = Part::Number(state as u64);
        out.fill("    s{} [label=\"{}", &[state, state]);
        if self.is_moore {
            out.put("\\n");
            put_letter(written, &self.outputs, out);
        }
        out.put("\"];\n");
    }

    fn put_arrows(&self, state: usize, row: &Row, out: &mut Text) {
        for (place, edge) in row.edges.iter().enumerate() {
            let next = edge.answer.next;
            let mut earlier = row.edges.iter().take(place);
            if earlier.any(|other| other.answer.next == next) {
                continue;
            }
            let ends = [Part::Number(state as u64), Part::Number(next as u64)];
            out.fill("    s{} -> s{} [label=\"", &ends);
            self.put_lines(row, next, out);
            out.put("\"];\n");
        }
    }

    /// A line for each cube of letters that lead to that state.
    fn put_lines(&self, row: &Row, next: usize, out: &mut Text) {
        let mut is_first = true;
        for edge in row.edges.iter().filter(|edge| edge.answer.next == next) {
            if !is_first {
                out.put("\\n");
            }
            self.put_edge(edge, out);
            is_first = false;
        }
    }

    fn put_edge(&self, edge: &Edge, out: &mut Text) {
        put_cube(edge.cube, &self.inputs, " &amp; ", "-", out);
        if !self.is_moore {
            out.put(" / ");
            put_letter(edge.answer.written, &self.outputs, out);
        }
    }
}
