//! What a machine does on a word.

use letters_and_lassos::{Lasso, Letter};
use machine_table::Machine;
use std::alloc::{AllocError, Global};

/// A step: the state in which it begins, what is read, and what is written.
#[derive(Clone, Copy)]
pub(crate) struct Step {
    pub(crate) state: usize,
    pub(crate) read: Letter,
    pub(crate) written: Letter,
    /// Whether it is the first one of a round of the ring.
    pub(crate) begins_round: bool,
}

/// What a machine does on the stem of a word and on so many rounds of its ring.
pub(crate) fn steps_on(
    alloc: Global,
    machine: &Machine,
    word: &Lasso,
    rounds: u32,
) -> Result<Vec<Step>, AllocError> {
    let mut steps = Vec::new(alloc);
    let mut state = take_letters(machine, 0, word.stem(), false, &mut steps)?;
    for _ in 0..rounds {
        state = take_letters(machine, state, word.ring(), true, &mut steps)?;
    }
    Ok(steps)
}

/// Adds the steps on some letters from a state on, and gives the state behind them.
fn take_letters(
    machine: &Machine,
    from: usize,
    letters: &[Letter],
    is_ring: bool,
    steps: &mut Vec<Step>,
) -> Result<usize, AllocError> {
    let mut state = from;
    let mut begins_round = is_ring;
    for read in letters {
        let Some(answer) = machine.answer(state, *read) else {
            break;
        };
        steps.push(Step {
            state,
            read: *read,
            written: answer.written,
            begins_round,
        })?;
        state = answer.next;
        begins_round = false;
    }
    Ok(state)
}
