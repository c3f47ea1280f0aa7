//! Cells in columns.

use machine_table::{ShowFault, Text};
use std::alloc::Global;

/// Two blanks stand between columns.
const GAP: usize = 2;

/// Rows of cells, one after the other, all of so many columns.
#[derive(Drop)]
pub(crate) struct Grid {
    alloc: Global,
    columns: usize,
    /// The texts of all cells, one behind the other.
    pub(crate) cells: Text,
    /// Where each cell ends.
    ends: Vec<usize>,
}

impl Grid {
    pub(crate) fn new(alloc: Global, columns: usize) -> Grid {
        Grid {
            alloc,
            columns,
            cells: Text::new(alloc),
            ends: Vec::new(alloc),
        }
    }

    /// Ends the cell into which was put what stands behind the last one.
    pub(crate) fn end_cell(&mut self) -> Result<(), ShowFault> {
        self.ends.push(self.cells.len())?;
        Ok(())
    }

    /// The rows as lines, with each column as wide as its widest cell; the last cell isn't filled up.
    pub(crate) fn put_to(self, out: &mut Text) -> Result<(), ShowFault> {
        let widths = self.widths()?;
        let bytes = self.cells.finish()?;
        let last = self.columns.saturating_sub(1);
        let mut begin = 0;
        let mut column = 0usize;
        for end in &self.ends {
            let cell = bytes.get(begin..*end).unwrap_or(&[]);
            begin = *end;
            out.put_bytes(cell);
            if column < last {
                let width = widths.get(column).copied().unwrap_or(0);
                out.put_blanks(width.saturating_sub(cell.len()).saturating_add(GAP));
                column = column.saturating_add(1);
            } else {
                out.put("\n");
                column = 0;
            }
        }
        Ok(())
    }

    fn widths(&self) -> Result<Vec<usize>, ShowFault> {
        let mut widths = vec![in self.alloc; 0usize; self.columns]?;
        let mut begin = 0;
        let mut column = 0usize;
        for end in &self.ends {
            let length = end.saturating_sub(begin);
            begin = *end;
            if let Some(width) = widths.get_mut(column) {
                *width = length.max(*width);
            }
            column = column.saturating_add(1);
            if column >= self.columns {
                column = 0;
            }
        }
        Ok(widths)
    }
}
