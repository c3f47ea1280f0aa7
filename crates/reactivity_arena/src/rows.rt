//! What the monitors of a game are there for.

use conjunct_monitors::{Diagrams, Limit, Meter, Monitor, Order, Stop};
use conjuncts::{Class, Conjunct, Forms};
use std::alloc::Global;

/// What a monitor is there for.
#[derive(Clone, Copy)]
pub(crate) struct Role {
    pub(crate) is_assumption: bool,
    pub(crate) depth: u32,
    /// The mark of its side that the monitor's marks stand for; none where it asks for safety alone.
    pub(crate) mark: u64,
}

/// The monitors of a game with their roles.
#[derive(Drop)]
pub struct Cast {
    pub(crate) monitors: Vec<Monitor>,
    pub(crate) roles: Vec<Role>,
    /// The diagrams of the monitors' edges.
    pub(crate) leaves: Diagrams,
    /// How many assumptions ask for something good, and how many guarantees.
    pub(crate) assumptions: u32,
    pub(crate) goals: u32,
}

/// So many assumptions, and so many guarantees, may ask for something good.
const MOST_MARKS: u32 = 64;

impl Cast {
    pub fn new(alloc: Global) -> Cast {
        Cast {
            monitors: Vec::new(alloc),
            roles: Vec::new(alloc),
            leaves: Diagrams::new(alloc),
            assumptions: 0,
            goals: 0,
        }
    }

    /// Adds the monitor of a conjunct.
    pub fn add(
        &mut self,
        alloc: Global,
        forms: &Forms,
        conjunct: Conjunct,
        is_assumption: bool,
        order: Order,
        meter: &mut Meter,
    ) -> Result<(), Stop> {
        let monitor = Monitor::new(alloc, forms, conjunct, order, meter)?;
        let mark = self.next_mark(conjunct.class, is_assumption, meter)?;
        self.monitors.push(monitor)?;
        self.roles.push(Role {
            is_assumption,
            depth: conjunct.depth,
            mark,
        })?;
        Ok(())
    }

    fn next_mark(&mut self, class: Class, is_assumption: bool, meter: &Meter) -> Result<u64, Stop> {
        if class == Class::Safety {
            return Ok(0);
        }
        let count = if is_assumption {
            &mut self.assumptions
        } else {
            &mut self.goals
        };
        if *count >= MOST_MARKS {
            return Err(meter.passed(Limit::Conjuncts));
        }
        let mark = mark_of(*count);
        *count = count.saturating_add(1);
        Ok(mark)
    }

    /// The first states of all monitors.
    pub(crate) fn start(&self, alloc: Global) -> Result<Vec<u32>, Stop> {
        let mut start = Vec::new(alloc);
        for monitor in &self.monitors {
            start.push(monitor.start())?;
        }
        Ok(start)
    }

    /// The nodes of the edges of states, one of each monitor.
    pub(crate) fn edges(
        &mut self,
        alloc: Global,
        states: &[u32],
        meter: &mut Meter,
    ) -> Result<Vec<u32>, Stop> {
        let mut row = Vec::with_capacity(alloc, states.len())?;
        for (monitor, state) in self.monitors.iter_mut().zip(states) {
            row.push(monitor.edges(&mut self.leaves, *state, meter)?)?;
        }
        Ok(row)
    }

    /// The highest level on which a node of a row splits.
    pub(crate) fn level(&self, row: &[u32]) -> u32 {
        let mut level = u32::MAX;
        for node in row {
            level = level.min(self.leaves.level(*node));
        }
        level
    }

    /// The rows where the signal of a level is away, and where it is there.
    pub(crate) fn halves(
        &self,
        alloc: Global,
        row: &[u32],
        level: u32,
    ) -> Result<(Vec<u32>, Vec<u32>), Stop> {
        let mut lows = Vec::with_capacity(alloc, row.len())?;
        let mut highs = Vec::with_capacity(alloc, row.len())?;
        for node in row {
            let (low, high) = self.leaves.halves(*node, level);
            lows.push(low)?;
            highs.push(high)?;
        }
        Ok((lows, highs))
    }
}

/// The mark of a number.
pub fn mark_of(number: u32) -> u64 {
    1u64.checked_shl(number).unwrap_or(0)
}
