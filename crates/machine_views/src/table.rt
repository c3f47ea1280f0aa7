//! A machine as a table: a line for each cube of input letters of each state.

use crate::grid::Grid;
use machine_table::{Edge, Machine, ShowFault, Text, put_cube, put_letter};
use std::alloc::Global;

/// What is written stands behind what is read, or behind the state where it is of the state alone.
pub(crate) fn put_table(alloc: Global, machine: &Machine, out: &mut Text) -> Result<(), ShowFault> {
    let titles = if machine.is_moore() {
        ["state", "writes", "reads", "next"]
    } else {
        ["state", "reads", "writes", "next"]
    };
    let mut grid = Grid::new(alloc, titles.len());
    for title in titles {
        grid.cells.put(title);
        grid.end_cell()?;
    }
    for (state, row) in machine.rows.iter().enumerate() {
        for edge in &row.edges {
            put_line(machine, state, edge, &mut grid)?;
        }
    }
    grid.put_to(out)
}

fn put_line(
    machine: &Machine,
    state: usize,
    edge: &Edge,
    grid: &mut Grid,
) -> Result<(), ShowFault> {
    grid.cells.put_number(state as u64);
    grid.end_cell()?;
    if machine.is_moore() {
        put_letter(
            edge.answer.written,
            &machine.outputs.labels,
            &mut grid.cells,
        );
        grid.end_cell()?;
    }
    put_cube(
        edge.cube,
        &machine.inputs.labels,
        " & ",
        "-",
        &mut grid.cells,
    );
    grid.end_cell()?;
    if !machine.is_moore() {
        put_letter(
            edge.answer.written,
            &machine.outputs.labels,
            &mut grid.cells,
        );
        grid.end_cell()?;
    }
    grid.cells.put_number(edge.answer.next as u64);
    grid.end_cell()
}
