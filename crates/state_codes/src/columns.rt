//! A machine with codes for its states as a problem of nets: a column for each reached state and letter.

use crate::tables::Table;
use signal_nets::Problem;
use std::alloc::{AllocError, Global};

/// Sets of columns that are filled column by column.
#[derive(Drop)]
struct Sets {
    sets: Vec<Vec<u64>>,
}

/// The problem of a machine whose states have these codes of so many bits. Where columns don't fill their words, the first ones stand there
/// again.
pub fn problem_of(
    alloc: Global,
    table: &Table,
    codes: &[u32],
    bits: u32,
    is_moore: bool,
) -> Result<Problem, AllocError> {
    let columns = table.states.saturating_mul(table.letters);
    let width = columns.div_ceil(64);
    let mut leaves = Sets::empty(alloc, table.inputs.saturating_add(bits), width)?;
    let mut targets = Sets::empty(alloc, table.outputs.saturating_add(bits), width)?;
    let mut state = 0usize;
    let mut letter = 0usize;
    for column in 0..width.saturating_mul(64) {
        let next = table.next(state, letter) as usize;
        leaves.put(column, 0, letter as u64);
        leaves.put(column, table.inputs, code_of(codes, state));
        targets.put(column, 0, table.written(state, letter));
        targets.put(column, table.outputs, code_of(codes, next));
        (state, letter) = behind(table, state, letter);
    }
    Ok(Problem {
        width,
        leaves: leaves.sets,
        inputs: table.inputs as usize,
        targets: targets.sets,
        outputs: table.outputs as usize,
        is_moore,
    })
}

fn code_of(codes: &[u32], state: usize) -> u64 {
    u64::from(codes.get(state).copied().unwrap_or(0))
}

/// The next pair of a state and a letter, and the first behind the last.
fn behind(table: &Table, state: usize, letter: usize) -> (usize, usize) {
    if letter.saturating_add(1) < table.letters {
        (state, letter.saturating_add(1))
    } else if state.saturating_add(1) < table.states {
        (state.saturating_add(1), 0)
    } else {
        (0, 0)
    }
}

impl Sets {
    fn empty(alloc: Global, count: u32, width: usize) -> Result<Sets, AllocError> {
        let mut sets = Vec::new(alloc);
        for _ in 0..count {
            sets.push(vec![in alloc; 0u64; width]?)?;
        }
        Ok(Sets { sets })
    }

    /// Puts a column into the sets of the bits of a number, the first bit's at a place.
    fn put(&mut self, column: usize, first: u32, number: u64) {
        let mut left = number;
        for _ in 0..64 {
            if left == 0 {
                break;
            }
            let place = first.saturating_add(left.trailing_zeros()) as usize;
            if let Some(set) = self.sets.get_mut(place)
                && let Some(word) = set.get_mut(column / 64)
            {
                *word |= 1u64 << (column % 64);
            }
            left &= left - 1;
        }
    }
}
