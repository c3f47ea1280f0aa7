//! A machine with fewer states: moves are led to another state where that still wins.

use crate::class_machines::ClassMachine;
use crate::products::is_won;
use game_arena::{Arena, Meter, Stop};
use std::alloc::{AllocError, Global};
use time_limits::Deadline;

/// Leads all moves into one state to another, again and again, as long as the machine still wins, the meter has steps, and there is time.
pub(crate) fn with_fewer_states<D: Deadline>(
    alloc: Global,
    machine: ClassMachine,
    arena: &Arena,
    meter: &mut Meter,
    deadline: &D,
) -> ClassMachine {
    let mut least = machine;
    for _ in 0..least.states.len() {
        match one_fewer(alloc, &least, arena, meter, deadline) {
            Ok(Some(lesser)) => least = lesser,
            _ => break,
        }
    }
    least
}

/// A machine with one state less or more, if leading the moves into one state to another makes one.
fn one_fewer<D: Deadline>(
    alloc: Global,
    machine: &ClassMachine,
    arena: &Arena,
    meter: &mut Meter,
    deadline: &D,
) -> Result<Option<ClassMachine>, Stop> {
    let count = u32::try_from(machine.states.len()).unwrap_or(0);
    let copying = machine.moves() / 8;
    for from in (0..count).rev() {
        for to in 0..count {
            if from == to {
                continue;
            }
            if deadline.is_over() {
                return Err(Stop::Steps);
            }
            meter.take(copying)?;
            let other = redirected(alloc, machine, from, to)?;
            if is_won(alloc, &other, arena, meter)? {
                return Ok(Some(other));
            }
        }
    }
    Ok(None)
}

/// The machine whose moves into a state lead to another. Where the first is the start, the other becomes it.
fn redirected(
    alloc: Global,
    machine: &ClassMachine,
    from: u32,
    to: u32,
) -> Result<ClassMachine, AllocError> {
    let mut other = machine.copy()?;
    let (old, new) = if from == 0 { (to, 0) } else { (from, to) };
    if from == 0 && (to as usize) < other.states.len() {
        other.states.swap(0, to as usize);
    }
    for moves in other.states.iter_mut() {
        for step in moves.iter_mut() {
            if step.next == old {
                step.next = new;
            }
        }
    }
    other.reached(alloc)
}
