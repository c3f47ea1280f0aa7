//! The monitor of a conjunct.

use crate::alternatives::{DONE, NOTHING};
use crate::diagrams::{Diagrams, Order};
use crate::expansions::{Expansions, Joint, MOST_LEVELS};
use crate::stops::{Limit, Meter, Stop};
use conjuncts::{Class, Conjunct, Form, FormId, Forms};
use indexmap::IndexSet;
use std::alloc::Global;
use std::collections::HashMap;

/// The state of a conjunct that is broken.
pub const BROKEN: u32 = 0;

/// The state of a conjunct that is met for good.
pub const MET: u32 = 1;

/// A state of a monitor.
#[derive(Clone, Copy, PartialEq, Eq, Hash)]
enum State {
    Broken,
    Met,
    /// The numbers of alternatives: of those that are waited for, and of those that come behind the breakpoint.
    Open(u32, u32),
}

/// Diagrams of what is waited for and of what comes behind, by their nodes.
type Pair = (u32, u32);

/// A deterministic monitor. Its edges are diagrams, shared by all monitors of a game, that end in states; a mark says that what is asked
/// again and again, or once, was met.
#[derive(Drop)]
pub struct Monitor {
    class: Class,
    /// The form that is asked again and again.
    asked: FormId,
    start: u32,
    expansions: Expansions,
    states: IndexSet<State>,
    /// For each state the node of its edges, once they are made.
    edges: Vec<Option<u32>>,
    told: HashMap<Pair, u32>,
}

/// No monitor has more states.
const MOST_STATES: usize = 100_000;

impl Monitor {
    /// The monitor of a conjunct.
    pub fn new(
        alloc: Global,
        forms: &Forms,
        conjunct: Conjunct,
        order: Order,
        meter: &mut Meter,
    ) -> Result<Monitor, Stop> {
        let expansions = Expansions::new(alloc, forms, conjunct.form, order, meter)?;
        let mut monitor = Monitor {
            class: conjunct.class,
            asked: asked_by(forms, conjunct.form),
            start: BROKEN,
            expansions,
            states: IndexSet::new(alloc),
            edges: Vec::new(alloc),
            told: HashMap::new(alloc),
        };
        monitor.number_of(State::Broken, meter)?;
        monitor.number_of(State::Met, meter)?;
        let start = match conjunct.class {
            Class::Recurrence => State::Open(DONE, DONE),
            _ => State::Open(monitor.expansions.obliged(conjunct.form, meter)?, DONE),
        };
        monitor.start = monitor.number_of(start, meter)?;
        Ok(monitor)
    }

    /// The first state.
    pub fn start(&self) -> u32 {
        self.start
    }

    /// How many states were met.
    pub fn count(&self) -> usize {
        self.states.len()
    }

    /// The diagram of the edges of a state.
    pub fn edges(
        &mut self,
        diagrams: &mut Diagrams,
        state: u32,
        meter: &mut Meter,
    ) -> Result<u32, Stop> {
        if let Some(Some(known)) = self.edges.get(state as usize) {
            return Ok(*known);
        }
        let node = self.new_edges(diagrams, state, meter)?;
        if let Some(own) = self.edges.get_mut(state as usize) {
            *own = Some(node);
        }
        Ok(node)
    }

    fn new_edges(
        &mut self,
        diagrams: &mut Diagrams,
        state: u32,
        meter: &mut Meter,
    ) -> Result<u32, Stop> {
        match self.states.get_index(state as usize).copied() {
            Some(State::Met) => Ok(diagrams.end(MET, true)?),
            Some(State::Open(waited, behind)) => {
                let first = self.expansions.of_alternatives(waited, meter)?;
                let second = self.behind(behind, meter)?;
                self.told(diagrams, (first, second), MOST_LEVELS, meter)
            }
            Some(State::Broken) | None => Ok(diagrams.end(BROKEN, false)?),
        }
    }

    /// The diagram of what comes behind: what stood there, and what is asked anew.
    fn behind(&mut self, behind: u32, meter: &mut Meter) -> Result<u32, Stop> {
        let node = self.expansions.of_alternatives(behind, meter)?;
        match self.class {
            Class::Recurrence => {
                let anew = self.expansions.of_form(self.asked);
                self.expansions
                    .join(Joint::Both, node, anew, MOST_LEVELS, meter)
            }
            _ => Ok(node),
        }
    }

    /// The diagram of the states to which a pair of diagrams leads.
    fn told(
        &mut self,
        diagrams: &mut Diagrams,
        pair: Pair,
        left: u32,
        meter: &mut Meter,
    ) -> Result<u32, Stop> {
        if let Some(known) = self.told.get(&pair) {
            return Ok(*known);
        }
        if left == 0 {
            return Err(Stop::NoShape);
        }
        meter.take_steps(1)?;
        let level = self.level(pair);
        let node = if level == u32::MAX {
            self.told_end(diagrams, pair, meter)?
        } else {
            let (first_low, first_high) = self.expansions.diagrams.halves(pair.0, level);
            let (second_low, second_high) = self.expansions.diagrams.halves(pair.1, level);
            let low = self.told(diagrams, (first_low, second_low), left - 1, meter)?;
            let high = self.told(diagrams, (first_high, second_high), left - 1, meter)?;
            diagrams.split(level, low, high)?
        };
        self.told.insert(pair, node)?;
        Ok(node)
    }

    fn level(&self, pair: Pair) -> u32 {
        let own = &self.expansions.diagrams;
        own.level(pair.0).min(own.level(pair.1))
    }

    fn told_end(
        &mut self,
        diagrams: &mut Diagrams,
        pair: Pair,
        meter: &mut Meter,
    ) -> Result<u32, Stop> {
        let own = &self.expansions.diagrams;
        let (Some(first), Some(second)) = (own.if_end(pair.0), own.if_end(pair.1)) else {
            return Ok(diagrams.end(BROKEN, false)?);
        };
        let (state, is_marked) = self.next_state(first.place, second.place)?;
        let number = self.number_of(state, meter)?;
        Ok(diagrams.end(number, is_marked)?)
    }

    /// The state of what is waited for and of what comes behind, and whether something was met.
    fn next_state(&mut self, waited: u32, behind: u32) -> Result<(State, bool), Stop> {
        if waited == NOTHING || behind == NOTHING {
            return Ok((State::Broken, false));
        }
        if self.class != Class::Recurrence {
            let state = if waited == DONE {
                State::Met
            } else {
                State::Open(waited, DONE)
            };
            return Ok((state, waited == DONE));
        }
        let is_met = waited == DONE;
        let (waited, behind) = if is_met {
            (behind, DONE)
        } else {
            (waited, behind)
        };
        // What has to be met before the breakpoint needn't be met again behind it.
        let behind = match self.expansions.alternatives.if_only(waited) {
            Some(sure) => self.expansions.alternatives.without(behind, sure)?,
            None => behind,
        };
        Ok((State::Open(waited, behind), is_met))
    }

    fn number_of(&mut self, state: State, meter: &mut Meter) -> Result<u32, Stop> {
        let (number, is_new) = self.states.insert_full(state)?;
        if is_new {
            meter.take_bytes(100)?;
            self.edges.push(None)?;
        }
        if number >= MOST_STATES {
            return Err(meter.passed(Limit::MonitorStates));
        }
        Ok(u32::try_from(number).unwrap_or(BROKEN))
    }
}

/// The a of `G a`.
fn asked_by(forms: &Forms, form: FormId) -> FormId {
    match forms.form(form) {
        Form::Release(_, asked) => asked,
        _ => form,
    }
}
