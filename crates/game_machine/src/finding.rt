//! Both sides of a text, played by rounds.

use crate::circuits::circuit_of;
use crate::making::machine_of;
use crate::sides::Sides;
use aiger_text::Circuit;
use game_arena::{Arena, Meter, Player, Stop};
use letters_and_lassos::{Kind, Side};
use machine_model::Automaton;
use names_and_numbers::Name;
use safety_game::{Budget, Win};
use std::alloc::{AllocError, Global};
use std::thread::Threads;
use time_limits::Deadline;

/// What is played for: the signals by their names, the kind of the system's machines, and for each side that plays an automaton that
/// accepts what the side has to keep away from. In its letters the inputs come before the outputs; there are at most 32 signals.
#[derive(Clone, Copy)]
pub struct Contest<'a> {
    pub inputs: &'a [Name],
    pub outputs: &'a [Name],
    /// The environment's machines are of the other kind.
    pub kind: Kind,
    pub system: Option<&'a Automaton>,
    pub environment: Option<&'a Automaton>,
}

/// A side that wins, and the circuit of its machine, which is still to be tested. A circuit of the environment has the text's outputs as
/// its inputs, and the text's inputs as its outputs.
#[derive(Drop)]
pub struct Found {
    pub side: Side,
    /// The number of the machine's states.
    pub states: usize,
    pub circuit: Circuit,
}

/// What comes of a contest.
#[derive(Drop)]
pub enum Outcome {
    Found(Found),
    /// Nobody wins.
    NoWin(End),
    /// This side wins, and its machine has too many moves, its circuit has too many variables, or they take too many steps to make, or more
    /// time than there is.
    NoCircuit(Side),
}

/// How games end that nobody wins.
#[derive(Clone, Copy, Debug, PartialEq, Eq)]
pub enum End {
    /// No game is left that could be won: each is lost, or has no room for its positions.
    Over,
    /// The budget's steps are used up.
    Steps,
    /// The time is over.
    Time,
}

/// Plays rounds of both sides until one of them wins, no game is left that could be won, or the budget is used up, or the time. Where there
/// are two workers, each side has a thread of its own; what is found is the same. An error says that memory ran out.
pub fn find<R: Threads, D: Deadline + Sync>(
    rt: &R,
    alloc: Global,
    contest: Contest<'_>,
    budget: Budget,
    workers: u32,
    deadline: &D,
) -> Result<Outcome, AllocError> {
    let mut left = budget;
    let system = contest.arena(alloc, Side::System, &mut left)?;
    let environment = contest.arena(alloc, Side::Environment, &mut left)?;
    let mut sides = Sides::new(alloc, system.as_ref(), environment.as_ref())?;
    match sides.first_win(rt, workers, &mut left, deadline)? {
        Some(win) => contest.found(alloc, win, deadline),
        None => Ok(Outcome::NoWin(end_of(left, sides.are_over()))),
    }
}

/// How games that nobody won ended, by what is left of their budget, and whether none is left that could be won.
fn end_of(left: Budget, are_over: bool) -> End {
    if left.steps == 0 {
        End::Steps
    } else if are_over {
        End::Over
    } else {
        End::Time
    }
}

impl Contest<'_> {
    /// The arena of a side. None where it has no automaton, or one for which the steps don't suffice.
    fn arena(
        &self,
        alloc: Global,
        side: Side,
        left: &mut Budget,
    ) -> Result<Option<Arena>, AllocError> {
        let automaton = match side {
            Side::System => self.system,
            Side::Environment => self.environment,
        };
        let Some(automaton) = automaton else {
            return Ok(None);
        };
        let mut meter = Meter::new(left.steps);
        let outcome = Arena::new(alloc, automaton, self.player(side), &mut meter);
        left.steps = left.steps.saturating_sub(meter.used());
        unless_memory(outcome)
    }

    fn player(&self, side: Side) -> Player {
        Player {
            inputs: count_of(self.inputs),
            outputs: count_of(self.outputs),
            side,
            kind: match side {
                Side::System => self.kind,
                Side::Environment => self.kind.other(),
            },
        }
    }

    /// The circuit of a win.
    fn found<D: Deadline>(
        &self,
        alloc: Global,
        win: Win<'_>,
        deadline: &D,
    ) -> Result<Outcome, AllocError> {
        let side = win.game.arena.player.side;
        let (read, written) = match side {
            Side::System => (self.inputs, self.outputs),
            Side::Environment => (self.outputs, self.inputs),
        };
        let steps = win.steps;
        let Some(machine) = unless_memory(machine_of(alloc, win, deadline))? else {
            return Ok(Outcome::NoCircuit(side));
        };
        let states = machine.states.len();
        match unless_memory(circuit_of(alloc, &machine, read, written, steps))? {
            Some(circuit) => Ok(Outcome::Found(Found {
                side,
                states,
                circuit,
            })),
            None => Ok(Outcome::NoCircuit(side)),
        }
    }
}

fn count_of(names: &[Name]) -> u32 {
    u32::try_from(names.len()).unwrap_or(u32::MAX)
}

/// What was made, or None where the budget kept it from being made.
fn unless_memory<T: Drop>(outcome: Result<T, Stop>) -> Result<Option<T>, AllocError> {
    match outcome {
        Ok(made) => Ok(Some(made)),
        Err(Stop::NoMemory) => Err(AllocError),
        Err(Stop::Steps | Stop::Positions | Stop::Bytes) => Ok(None),
    }
}
