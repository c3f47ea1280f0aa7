//! Decision diagrams over letters, whose nodes stand once each.

use indexmap::IndexSet;
use letters_and_lassos::Kind;
use std::alloc::{AllocError, Global};

/// Where a diagram ends: what this number stands for, with a mark or without.
#[derive(Clone, Copy, Debug, PartialEq, Eq, Hash)]
pub struct End {
    pub place: u32,
    pub is_marked: bool,
}

/// A node of a diagram.
#[derive(Clone, Copy, Debug, PartialEq, Eq, Hash)]
pub enum Diagram {
    End(End),
    /// By the signal of a level: the node where it is away, and the node where it is there.
    Split(u32, u32, u32),
}

/// The nodes of diagrams, by their numbers.
#[derive(Drop)]
pub struct Diagrams {
    nodes: IndexSet<Diagram>,
}

impl Diagrams {
    pub fn new(alloc: Global) -> Diagrams {
        Diagrams {
            nodes: IndexSet::new(alloc),
        }
    }

    /// The number of nodes.
    pub fn count(&self) -> usize {
        self.nodes.len()
    }

    /// The node of a number.
    pub fn node(&self, number: u32) -> Diagram {
        match self.nodes.get_index(number as usize) {
            Some(node) => *node,
            None => Diagram::End(End {
                place: 0,
                is_marked: false,
            }),
        }
    }

    /// The end that a node is.
    pub fn if_end(&self, number: u32) -> Option<End> {
        match self.node(number) {
            Diagram::End(end) => Some(end),
            Diagram::Split(_, _, _) => None,
        }
    }

    /// The level on which a node splits; where it is an end, one that is below all.
    pub fn level(&self, number: u32) -> u32 {
        match self.node(number) {
            Diagram::End(_) => u32::MAX,
            Diagram::Split(level, _, _) => level,
        }
    }

    /// The nodes that a node leads to where the signal of a level is away, and where it is there.
    pub fn halves(&self, number: u32, level: u32) -> (u32, u32) {
        match self.node(number) {
            Diagram::Split(own, low, high) if own == level => (low, high),
            _ => (number, number),
        }
    }

    pub fn end(&mut self, place: u32, is_marked: bool) -> Result<u32, AllocError> {
        self.number_of(Diagram::End(End { place, is_marked }))
    }

    pub fn split(&mut self, level: u32, low: u32, high: u32) -> Result<u32, AllocError> {
        if low == high {
            return Ok(low);
        }
        self.number_of(Diagram::Split(level, low, high))
    }

    fn number_of(&mut self, node: Diagram) -> Result<u32, AllocError> {
        let (number, _is_new) = self.nodes.insert_full(node)?;
        Ok(u32::try_from(number).unwrap_or(0))
    }
}

/// In which order diagrams split on signals: first on those of who moves first. Where the system's machines are of kind Mealy the
/// environment moves first, else the system.
#[derive(Clone, Copy, Debug)]
pub struct Order {
    pub inputs: u32,
    pub outputs: u32,
    pub kind: Kind,
}

impl Order {
    /// The number of signals of who moves first. They have the first levels.
    pub fn first(self) -> u32 {
        match self.kind {
            Kind::Mealy => self.inputs,
            Kind::Moore => self.outputs,
        }
    }

    /// The number of levels.
    pub fn levels(self) -> u32 {
        self.inputs.saturating_add(self.outputs)
    }

    /// The level of a signal. The inputs' signals come before the outputs'.
    pub fn level_of(self, signal: u32) -> u32 {
        match self.kind {
            Kind::Mealy => signal,
            Kind::Moore if signal < self.inputs => self.outputs.saturating_add(signal),
            Kind::Moore => signal.saturating_sub(self.inputs),
        }
    }

    /// The signal of a level.
    pub fn signal_of(self, level: u32) -> u32 {
        match self.kind {
            Kind::Mealy => level,
            Kind::Moore if level < self.outputs => self.inputs.saturating_add(level),
            Kind::Moore => level.saturating_sub(self.outputs),
        }
    }

    /// The letter of the signal of a level alone.
    pub fn letter_of(self, level: u32) -> u64 {
        1u64.checked_shl(self.signal_of(level)).unwrap_or(0)
    }
}
