//! The strategy of the winner, as diagrams over the letters that it reads.

use crate::views::{Choice, Spot, View};
use conjunct_monitors::{Diagram, Diagrams, Limit, Meter, Order, Stop};
use indexmap::IndexSet;
use letters_and_lassos::{Kind, Side};
use reactivity_arena::{Arena, Fate, Link, Product};
use std::alloc::{AllocError, Global};
use std::collections::HashMap;
use time_limits::Deadline;

/// What is written as a whole letter, and the state behind.
#[derive(Clone, Copy, Debug, PartialEq, Eq, Hash)]
pub struct Action {
    pub writes: u64,
    pub next: u32,
}

/// A machine whose states are diagrams that end in the numbers of actions. The start is state 0.
#[derive(Drop)]
pub struct Strategy {
    pub side: Side,
    pub order: Order,
    pub diagrams: Diagrams,
    pub actions: IndexSet<Action>,
    pub states: Vec<u32>,
}

/// What a strategy is made of, on its way.
#[derive(Drop)]
pub(crate) struct Maker<'a> {
    product: &'a Product,
    arena: &'a Arena,
    view: View<'a>,
    strategy: Strategy,
    pub(crate) spots: IndexSet<Spot>,
    /// The guarantees that break for good, by their monitors, where the environment wins.
    pub(crate) broken: IndexSet<u32>,
    /// The strategy's nodes for nodes of the product, in the state that is made.
    made: HashMap<u32, u32>,
    alloc: Global,
}

/// A strategy has at most so many states.
const MOST_STATES: usize = 200_000;

/// More than any diagram has levels.
const MOST_LEVELS: u32 = 70;

impl<'a> Maker<'a> {
    pub(crate) fn new(
        alloc: Global,
        product: &'a Product,
        arena: &'a Arena,
        view: View<'a>,
    ) -> Maker<'a> {
        Maker {
            product,
            arena,
            view,
            strategy: Strategy {
                side: view.side,
                order: product.order,
                diagrams: Diagrams::new(alloc),
                actions: IndexSet::new(alloc),
                states: Vec::new(alloc),
            },
            spots: IndexSet::new(alloc),
            broken: IndexSet::new(alloc),
            made: HashMap::new(alloc),
            alloc,
        }
    }

    /// Makes the states that are reached. At each it asks whether the time is over.
    pub(crate) fn make<D: Deadline>(
        &mut self,
        meter: &mut Meter,
        deadline: &D,
    ) -> Result<(), Stop> {
        self.spots.insert(Spot::At(0, 0))?;
        for place in 0..usize::MAX {
            let Some(spot) = self.spots.get_index(place).copied() else {
                break;
            };
            if place >= MOST_STATES {
                return Err(meter.passed(Limit::StrategyStates));
            }
            if deadline.is_over() {
                return Err(Stop::Time);
            }
            meter.take_bytes(64)?;
            let node = self.state_of(spot, meter)?;
            self.strategy.states.push(node)?;
        }
        Ok(())
    }

    /// The strategy, with the monitors that it needs not to be met.
    pub(crate) fn strategy(self) -> Strategy {
        self.strategy
    }

    fn state_of(&mut self, spot: Spot, meter: &mut Meter) -> Result<u32, Stop> {
        self.made = HashMap::new(self.alloc);
        match spot {
            Spot::Free => self.action(0, Spot::Free),
            Spot::At(state, memory) if self.answers() => {
                let root = self.arena.roots.get(state as usize).copied().unwrap_or(0);
                self.answers_of(state, memory, root, MOST_LEVELS, meter)
            }
            Spot::At(state, memory) => self.written_of(state, memory, meter),
        }
    }

    /// Whether the winner moves second, so that it answers to the first player's letter.
    fn answers(&self) -> bool {
        match self.strategy.side {
            Side::System => self.strategy.order.kind == Kind::Mealy,
            Side::Environment => self.strategy.order.kind == Kind::Moore,
        }
    }

    fn action(&mut self, writes: u64, spot: Spot) -> Result<u32, Stop> {
        let (next, _is_new) = self.spots.insert_full(spot)?;
        let (place, _is_new_action) = self.strategy.actions.insert_full(Action {
            writes,
            next: u32::try_from(next).unwrap_or(0),
        })?;
        let place = u32::try_from(place).unwrap_or(0);
        Ok(self.strategy.diagrams.end(place, false)?)
    }

    /// The answers to the first player's letters below a node of the product.
    fn answers_of(
        &mut self,
        state: u32,
        memory: u32,
        node: u32,
        left: u32,
        meter: &mut Meter,
    ) -> Result<u32, Stop> {
        if let Some(known) = self.made.get(&node) {
            return Ok(*known);
        }
        if left == 0 {
            return Err(Stop::NoShape);
        }
        meter.take_steps(1)?;
        let made = match self.product.diagrams.node(node) {
            Diagram::Split(level, low, high) if level < self.strategy.order.first() => {
                let low = self.answers_of(state, memory, low, left - 1, meter)?;
                let high = self.answers_of(state, memory, high, left - 1, meter)?;
                self.strategy.diagrams.split(level, low, high)?
            }
            _ => self.answer(state, memory, node, meter)?,
        };
        self.made.insert(node, made)?;
        Ok(made)
    }

    /// The answer to the letters of a class.
    fn answer(
        &mut self,
        state: u32,
        memory: u32,
        node: u32,
        meter: &mut Meter,
    ) -> Result<u32, Stop> {
        let fates = match self.arena.classes.get_index_of(&node) {
            Some(class) => self.arena.class_fates.of(class),
            None => &[],
        };
        meter.take_steps(fates.len())?;
        let Some((link, choice)) = self.cheapest(state, memory, fates) else {
            return Err(Stop::NoShape);
        };
        self.note(link.target)?;
        self.action(link.letter, choice.spot)
    }

    /// The fate that costs least, one whose spot is known before one whose isn't.
    fn cheapest(&self, state: u32, memory: u32, fates: &[Link]) -> Option<(Link, Choice)> {
        let mut best: Option<(Link, Choice)> = None;
        for link in fates {
            let fate = self.arena.fate(link.target);
            if let Some(choice) = self.view.choice(state, memory, fate) {
                let cost = self.cost_with_novelty(choice);
                let is_better = match best {
                    Some((_, known)) => cost < known.cost,
                    None => true,
                };
                if is_better {
                    best = Some((*link, Choice { cost, ..choice }));
                }
            }
        }
        best
    }

    fn cost_with_novelty(&self, choice: Choice) -> u64 {
        let novelty = u64::from(!self.spots.contains(&choice.spot));
        choice.cost.saturating_mul(2).saturating_add(novelty)
    }

    /// What is written in a state, and where it leads on the other's letters.
    fn written_of(&mut self, state: u32, memory: u32, meter: &mut Meter) -> Result<u32, Stop> {
        let mut best: Option<(Link, u64)> = None;
        for link in self.arena.state_classes.of(state as usize) {
            let fates = self.arena.class_fates.of(link.target as usize);
            meter.take_steps(fates.len())?;
            if let Some(cost) = self.cost_of_class(state, memory, fates) {
                let is_better = match best {
                    Some((_, known)) => cost < known,
                    None => true,
                };
                if is_better {
                    best = Some((*link, cost));
                }
            }
        }
        let Some((link, _)) = best else {
            return Err(Stop::NoShape);
        };
        self.note_class(link)?;
        let node = self.arena.classes.get_index(link.target as usize).copied();
        self.ways_of(
            state,
            memory,
            link.letter,
            node.unwrap_or(0),
            MOST_LEVELS,
            meter,
        )
    }

    /// How many new spots a class leads to; None where one of its fates isn't to be taken.
    fn cost_of_class(&self, state: u32, memory: u32, fates: &[Link]) -> Option<u64> {
        let mut cost = 0u64;
        for link in fates {
            let choice = self
                .view
                .choice(state, memory, self.arena.fate(link.target))?;
            cost = cost.saturating_add(u64::from(!self.spots.contains(&choice.spot)));
        }
        Some(cost)
    }

    fn note_class(&mut self, class: Link) -> Result<(), AllocError> {
        for link in self.arena.class_fates.of(class.target as usize) {
            self.note(link.target)?;
        }
        Ok(())
    }

    /// Notes the guarantee that breaks with a fate.
    fn note(&mut self, fate: u32) -> Result<(), AllocError> {
        if let Fate::Lost(guarantee) = self.arena.fate(fate) {
            self.broken.insert(guarantee)?;
        }
        Ok(())
    }

    /// Where what is written leads below a node of the product.
    fn ways_of(
        &mut self,
        state: u32,
        memory: u32,
        writes: u64,
        node: u32,
        left: u32,
        meter: &mut Meter,
    ) -> Result<u32, Stop> {
        if let Some(known) = self.made.get(&node) {
            return Ok(*known);
        }
        if left == 0 {
            return Err(Stop::NoShape);
        }
        meter.take_steps(1)?;
        let made = match self.product.diagrams.node(node) {
            Diagram::Split(level, low, high) => {
                let low = self.ways_of(state, memory, writes, low, left - 1, meter)?;
                let high = self.ways_of(state, memory, writes, high, left - 1, meter)?;
                self.strategy.diagrams.split(level, low, high)?
            }
            Diagram::End(end) => self.way(state, memory, writes, end.place)?,
        };
        self.made.insert(node, made)?;
        Ok(made)
    }

    fn way(&mut self, state: u32, memory: u32, writes: u64, fate: u32) -> Result<u32, Stop> {
        match self.view.choice(state, memory, self.arena.fate(fate)) {
            Some(choice) => self.action(writes, choice.spot),
            None => Err(Stop::NoShape),
        }
    }
}
