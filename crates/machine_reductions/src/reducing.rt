//! A machine that is made smaller, by phases.

use crate::ends::Ends;
use crate::machines::{Machine, Move};
use crate::meters::Meter;
use crate::numbers::{Numbered, Numbers};
use crate::reading::machine_of;
use crate::supports::Supports;
use annotation_maker::{Limit, Maker, MetStates, Stop};
use letters_and_lassos::Kind;
use machine_model::Row;
use std::alloc::{AllocError, Global};
use time_limits::Deadline;

/// A machine with fewer states, which is still to be tested.
#[derive(Drop)]
pub struct Reduction {
    pub states: u32,
    /// For each state its rows on all letters that are read, by their numbers. In what is written the first signal is bit 0.
    pub rows: Vec<Row>,
}

/// A machine, the numbers of its pairs, and the steps that are left.
#[derive(Drop)]
pub(crate) struct Reducer<'a> {
    pub(crate) alloc: Global,
    pub(crate) kind: Kind,
    pub(crate) machine: Machine,
    pub(crate) ends: Ends<'a>,
    pub(crate) numbers: Numbers,
    pub(crate) supports: Supports,
    pub(crate) meter: Meter,
    /// The numbers are those of the machine as it is.
    is_numbered: bool,
}

/// What a phase tries.
#[derive(Clone, Copy)]
enum Phase {
    /// All states at once whose support has at most so many states that another one lacks.
    Groups(u32),
    Pairs,
    Spare,
}

/// The phases, with the hundredths that each takes of the steps that are left for later ones.
const PHASES: [(Phase, u64); 8] = [
    (Phase::Groups(0), 30),
    (Phase::Groups(2), 10),
    (Phase::Groups(4), 10),
    (Phase::Pairs, 30),
    (Phase::Spare, 60),
    (Phase::Pairs, 50),
    (Phase::Spare, 50),
    (Phase::Pairs, 100),
];

/// A phase is tried again while it brings something, at most so often.
const MOST_ROUNDS: u32 = 100;

/// A machine that does the same for its side as the circuit's, with fewer states. None where none is found within so many steps, or a limit is
/// passed. The kind is that of the circuit's machine. Once the time is over, which is asked at each round, it is what was found by then.
pub fn with_fewer_states<D: Deadline>(
    alloc: Global,
    maker: Maker<'_>,
    kind: Kind,
    steps: u64,
    deadline: &D,
) -> Result<Option<Reduction>, AllocError> {
    let Some(machine) = machine_of(alloc, maker.circuit, maker.side)? else {
        return Ok(None);
    };
    if machine.count() <= 1 {
        return Ok(None);
    }
    let met = match MetStates::start(alloc, maker.formulas, maker.form) {
        Ok(met) => met,
        Err(Stop::Passed(_) | Stop::Time) => return Ok(None),
        Err(Stop::NoMemory) => return Err(AllocError),
    };
    reduced(Reducer::new(alloc, machine, met, kind, steps)?, deadline)
}

fn reduced<D: Deadline>(
    mut reducer: Reducer<'_>,
    deadline: &D,
) -> Result<Option<Reduction>, AllocError> {
    for (phase, hundredths) in PHASES {
        reducer.meter.begin(hundredths);
        reducer.rounds_of(phase, deadline)?;
    }
    let (states, rows) = reducer.machine.table(reducer.alloc)?;
    if states < reducer.machine.count() {
        Ok(Some(Reduction { states, rows }))
    } else {
        Ok(None)
    }
}

impl<'a> Reducer<'a> {
    fn new(
        alloc: Global,
        machine: Machine,
        met: MetStates<'a>,
        kind: Kind,
        steps: u64,
    ) -> Result<Reducer<'a>, AllocError> {
        let numbers = Numbers::new(alloc, machine.count())?;
        let supports = Supports::of(alloc, &numbers, machine.count())?;
        Ok(Reducer {
            alloc,
            kind,
            machine,
            ends: Ends::new(alloc, met),
            numbers,
            supports,
            meter: Meter::new(steps),
            is_numbered: false,
        })
    }

    /// Tries what a phase tries until it brings nothing, or its steps are used up.
    fn rounds_of<D: Deadline>(&mut self, phase: Phase, deadline: &D) -> Result<(), AllocError> {
        for _ in 0..MOST_ROUNDS {
            if deadline.is_over() {
                return Ok(());
            }
            match self.round_of(phase) {
                Ok(true) => {}
                Ok(false) | Err(Stop::Passed(_) | Stop::Time) => return Ok(()),
                Err(Stop::NoMemory) => return Err(AllocError),
            }
        }
        Ok(())
    }

    /// One round of a phase. Whether it brought something.
    fn round_of(&mut self, phase: Phase) -> Result<bool, Stop> {
        if !self.is_numbered {
            self.number_anew()?;
        }
        match phase {
            Phase::Groups(slack) => self.merge_groups(slack),
            Phase::Pairs => self.merge_pairs(),
            Phase::Spare => self.drop_spare(),
        }
    }

    /// Numbers all pairs of the machine, which has to come to rest.
    fn number_anew(&mut self) -> Result<(), Stop> {
        self.numbers.clear();
        let rises = self.ends.rise_at(0);
        let start = Numbered {
            state: self.machine.start(),
            at: 0,
            number: rises,
        };
        if !(self.numbers.raise(start)? && self.comes_to_rest()?) {
            return Err(Stop::Passed(Limit::Pairs));
        }
        self.numbers.keep();
        self.numbers.set_bound();
        self.supports = Supports::of(self.alloc, &self.numbers, self.machine.count())?;
        self.is_numbered = true;
        Ok(())
    }

    /// Lets numbers rise along the moves. Whether they come to rest below the bound.
    pub(crate) fn comes_to_rest(&mut self) -> Result<bool, Stop> {
        for _ in 0..u64::MAX {
            let Some(open) = self.numbers.next_open() else {
                break;
            };
            if !self.rises_from(open)? {
                return Ok(false);
            }
        }
        Ok(true)
    }

    /// Lets numbers rise behind a pair. Whether they keep the bound.
    fn rises_from(&mut self, from: Numbered) -> Result<bool, Stop> {
        for turn in 0..self.machine.moves(from.state).len() {
            let Some(step) = self.machine.moves(from.state).get(turn).copied() else {
                break;
            };
            if !self.rises_along(from, step)? {
                return Ok(false);
            }
        }
        Ok(true)
    }

    /// Lets numbers rise along a move from a pair. Whether they keep the bound.
    pub(crate) fn rises_along(&mut self, from: Numbered, step: Move) -> Result<bool, Stop> {
        let next = self.machine.led(step.next);
        let ends = self
            .ends
            .of(&self.machine, step.class, from.at, &mut self.meter)?;
        self.meter.take(ends.len().saturating_add(1))?;
        for end in ends {
            let to = Numbered {
                state: next,
                at: end.state,
                number: from.number.saturating_add(end.rises),
            };
            if !self.numbers.raise(to)? {
                return Ok(false);
            }
        }
        Ok(true)
    }

    /// Makes what was changed stand, and numbers the pairs anew.
    pub(crate) fn accept(&mut self) -> Result<(), Stop> {
        self.is_numbered = false;
        self.machine.settle(self.alloc)?;
        self.number_anew()
    }

    /// The states that are kept.
    pub(crate) fn kept(&self) -> Result<Vec<u32>, AllocError> {
        let mut kept = Vec::new(self.alloc);
        for state in 0..self.machine.count() {
            if self.machine.is_kept(state) {
                kept.push(state)?;
            }
        }
        Ok(kept)
    }
}
