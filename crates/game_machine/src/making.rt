//! A small machine of a win.

use crate::class_machines::ClassMachine;
use crate::fewer_states::with_fewer_states;
use crate::great_positions::make_great;
use crate::spare_positions::drop_spare;
use game_arena::{Meter, Stop};
use safety_game::Win;
use std::alloc::Global;
use time_limits::Deadline;

/// Each way to make a machine small may take as many steps as the win did, or so many.
const LEAST_STEPS: u64 = 100_000;

/// Making a machine of answers may take so many times the steps of the win, and at least so many.
const MAKING_TIMES: u64 = 10;

const LEAST_MAKING: u64 = 10_000_000;

/// A small machine of a win, or what kept it from being made. Once the time is over it is made no smaller.
pub(crate) fn machine_of<D: Deadline>(
    alloc: Global,
    win: Win<'_>,
    deadline: &D,
) -> Result<ClassMachine, Stop> {
    let mut win = win;
    let steps = win.steps.max(LEAST_STEPS);
    win.game.meter.refill(steps);
    as_far_as_it_came(drop_spare(alloc, &mut win, deadline))?;
    win.compact()?;
    win.game.meter.refill(steps);
    as_far_as_it_came(make_great(alloc, &mut win, deadline))?;
    win.game.meter.refill(steps);
    as_far_as_it_came(drop_spare(alloc, &mut win, deadline))?;
    win.compact()?;
    win.game
        .meter
        .refill(steps.saturating_mul(MAKING_TIMES).max(LEAST_MAKING));
    let machine = ClassMachine::of_win(alloc, &mut win, deadline)?;
    let mut meter = Meter::new(steps);
    let arena = win.game.arena;
    Ok(with_fewer_states(alloc, machine, arena, &mut meter, deadline))
}

/// Where the budget ended a way to make the win small, it stands as far as that came.
fn as_far_as_it_came(outcome: Result<(), Stop>) -> Result<(), Stop> {
    match outcome {
        Err(Stop::NoMemory) => Err(Stop::NoMemory),
        _ => Ok(()),
    }
}
