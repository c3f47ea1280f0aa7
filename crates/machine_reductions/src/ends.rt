//! Where the automaton goes on the letters of a class.

use crate::letter_sets::Condition;
use crate::machines::Machine;
use crate::meters::Meter;
use annotation_maker::{MetStates, Stop};
use std::alloc::Global;

/// A state of the automaton to which an edge leads, and 1 where it is rejecting, else 0.
#[derive(Clone, Copy)]
pub(crate) struct End {
    pub(crate) state: u32,
    pub(crate) rises: u32,
}

/// Some of the ends, from a first one on.
#[derive(Clone, Copy)]
struct Span {
    first: usize,
    count: usize,
}

/// For classes of letters and states of the automaton the states that follow, each worked out once.
#[derive(Drop)]
pub(crate) struct Ends<'a> {
    alloc: Global,
    met: MetStates<'a>,
    ends: Vec<End>,
    /// By class and then by state.
    spans: Vec<Vec<Option<Span>>>,
}

/// The most ends that are kept.
const MOST_ENDS: usize = 1 << 24;

impl<'a> Ends<'a> {
    pub(crate) fn new(alloc: Global, met: MetStates<'a>) -> Ends<'a> {
        Ends {
            alloc,
            met,
            ends: Vec::new(alloc),
            spans: Vec::new(alloc),
        }
    }

    /// What is added to a number at a state: 1 where it is rejecting.
    pub(crate) fn rise_at(&self, state: u32) -> u32 {
        u32::from(self.met.is_rejecting(state))
    }

    /// The states that follow a state on some letter of a class.
    pub(crate) fn of(
        &mut self,
        machine: &Machine,
        class: u32,
        state: u32,
        meter: &mut Meter,
    ) -> Result<&[End], Stop> {
        let span = match self.known(class, state) {
            Some(span) => span,
            None => self.add(machine, class, state, meter)?,
        };
        let last = span.first.saturating_add(span.count);
        Ok(self.ends.get(span.first..last).unwrap_or(&[]))
    }

    fn known(&self, class: u32, state: u32) -> Option<Span> {
        self.spans
            .get(class as usize)?
            .get(state as usize)
            .copied()
            .flatten()
    }

    fn add(
        &mut self,
        machine: &Machine,
        class: u32,
        state: u32,
        meter: &mut Meter,
    ) -> Result<Span, Stop> {
        let first = self.ends.len();
        if first > MOST_ENDS {
            meter.stop()?;
        }
        self.push_ends(machine, class, state, meter)?;
        let span = Span {
            first,
            count: self.ends.len().saturating_sub(first),
        };
        self.note(class as usize, state as usize, span)?;
        Ok(span)
    }

    fn push_ends(
        &mut self,
        machine: &Machine,
        number: u32,
        state: u32,
        meter: &mut Meter,
    ) -> Result<(), Stop> {
        let Some(class) = machine.class(number) else {
            return Ok(());
        };
        let letters = machine.letters_of(class);
        let count = self.fitting(machine, letters, class.writes, state, meter)?;
        for place in count {
            let rises = self.rise_at(place);
            self.ends.push(End {
                state: place,
                rises,
            })?;
        }
        Ok(())
    }

    /// The states to which those edges lead that fit some of the letters together with what is written, each once.
    fn fitting(
        &mut self,
        machine: &Machine,
        letters: &[u64],
        writes: u32,
        state: u32,
        meter: &mut Meter,
    ) -> Result<Vec<u32>, Stop> {
        let mut found = Vec::new(self.alloc);
        let edges = self.met.edges(state)?;
        meter.take(edges.len().saturating_mul(letters.len().saturating_add(1)))?;
        for edge in edges {
            let condition: Condition = machine.layout.condition(edge.cube);
            if condition.fits(letters, writes) {
                found.push(edge.to)?;
            }
        }
        found.sort_unstable();
        found.dedup();
        Ok(found)
    }

    fn note(&mut self, class: usize, state: usize, span: Span) -> Result<(), Stop> {
        for _ in self.spans.len()..class.saturating_add(1) {
            self.spans.push(Vec::new(self.alloc))?;
        }
        if let Some(row) = self.spans.get_mut(class) {
            for _ in row.len()..state.saturating_add(1) {
                row.push(None)?;
            }
            if let Some(place) = row.get_mut(state) {
                *place = Some(span);
            }
        }
        Ok(())
    }
}
