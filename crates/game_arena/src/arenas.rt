//! What a game is played on: the player and the ways of a small automaton.

use crate::automata::{Edge, MarkedAutomaton, are_joined, components_of, reduced, split_behind};
use crate::literals::Literals;
use crate::stops::{Meter, Stop};
use crate::tables::{at, is_in, mark};
use indexmap::IndexSet;
use letters_and_lassos::{Kind, Side};
use machine_model::Automaton;
use std::alloc::{AllocError, Global};

/// Who plays: the signals of both sides, whose machine is looked for and of which kind it is. A Mealy machine answers to what it reads,
/// a Moore machine writes before it reads.
#[derive(Clone, Copy)]
pub struct Player {
    pub inputs: u32,
    pub outputs: u32,
    pub side: Side,
    pub kind: Kind,
}

impl Player {
    /// The signals that the player reads, in whole letters.
    pub fn reads(self) -> u64 {
        match self.side {
            Side::System => low_bits(self.inputs),
            Side::Environment => shifted(low_bits(self.outputs), self.inputs),
        }
    }

    /// The signals that the player writes, in whole letters.
    pub fn writes(self) -> u64 {
        match self.side {
            Side::System => shifted(low_bits(self.outputs), self.inputs),
            Side::Environment => low_bits(self.inputs),
        }
    }
}

fn low_bits(count: u32) -> u64 {
    shifted(1, count).wrapping_sub(1)
}

fn shifted(bits: u64, by: u32) -> u64 {
    if by < 64 { bits << by } else { 0 }
}

/// An edge of the automaton for a player.
#[derive(Clone, Copy)]
pub struct Way {
    pub read: Literals,
    pub write: Literals,
    pub to: u32,
    pub marked: bool,
    /// Whether numbers go on along it: it stays in a component that has marks.
    pub inside: bool,
    /// Ways with the same literals to the same state have one name.
    pub name: u32,
}

/// The ways of each state.
#[derive(Drop)]
pub struct Arena {
    pub player: Player,
    pub start: u32,
    ways: Vec<Way>,
    begins: Vec<usize>,
    doomed: Vec<bool>,
    counted: Vec<bool>,
    /// The number of names of ways.
    pub names: usize,
}

impl Arena {
    /// The arena of an automaton that accepts what the player has to keep away from.
    pub fn new(
        alloc: Global,
        automaton: &Automaton,
        player: Player,
        meter: &mut Meter,
    ) -> Result<Arena, Stop> {
        let small = reduced(alloc, automaton, meter)?;
        let edges = without_covered(alloc, &small, meter)?;
        let components = components_of(alloc, &edges, small.doomed.len())?;
        let counted = counted_states(alloc, &edges, &components)?;
        let mut arena = Arena {
            player,
            start: small.start,
            ways: Vec::new(alloc),
            begins: begins_of(alloc, &edges, small.doomed.len())?,
            doomed: small.doomed,
            counted,
            names: 0,
        };
        arena.add_ways(alloc, &edges, &components)?;
        Ok(arena)
    }

    fn add_ways(
        &mut self,
        alloc: Global,
        edges: &[Edge],
        components: &[u32],
    ) -> Result<(), AllocError> {
        let mut names = IndexSet::new(alloc);
        for edge in edges {
            let name = name_of(&mut names, edge)?;
            let way = self.way(edge, components, name);
            self.ways.push(way)?;
        }
        self.names = names.len();
        Ok(())
    }

    /// An edge as the player sees it.
    fn way(&self, edge: &Edge, components: &[u32], name: u32) -> Way {
        Way {
            read: edge.letters.of_signals(self.player.reads()),
            write: edge.letters.of_signals(self.player.writes()),
            to: edge.to,
            marked: edge.marked,
            inside: self.is_counted(edge.from) && are_joined(components, edge.from, edge.to),
            name,
        }
    }

    pub fn states(&self) -> usize {
        self.doomed.len()
    }

    /// The ways of a state.
    pub fn ways_of(&self, state: u32) -> &[Way] {
        let state = state as usize;
        let begin = self.begins.get(state).copied().unwrap_or(self.ways.len());
        let end = self
            .begins
            .get(state.saturating_add(1))
            .copied()
            .unwrap_or(self.ways.len());
        self.ways.get(begin..end).unwrap_or(&[])
    }

    /// Whether a run that comes to the state can't be kept from marks without end.
    pub fn is_doomed(&self, state: u32) -> bool {
        is_in(&self.doomed, state)
    }

    /// Whether the state's component has marks.
    pub fn is_counted(&self, state: u32) -> bool {
        is_in(&self.counted, state)
    }

    /// Whether some component has marks that don't doom at once.
    pub fn has_marks(&self) -> bool {
        self.counted.contains(&true)
    }
}

/// Where the edges of each state begin, which are sorted by their source.
fn begins_of(alloc: Global, edges: &[Edge], states: usize) -> Result<Vec<usize>, AllocError> {
    let mut begins = Vec::with_capacity(alloc, states)?;
    for (state, _) in (0u32..u32::MAX).zip(0..states) {
        begins.push(edges.partition_point(|edge| edge.from < state))?;
    }
    Ok(begins)
}

/// Edges with the same literals to the same state have one name.
fn name_of(names: &mut IndexSet<(u64, u64, u32)>, edge: &Edge) -> Result<u32, AllocError> {
    let (name, _) = names.insert_full((edge.letters.on, edge.letters.off, edge.to))?;
    Ok(u32::try_from(name).unwrap_or(u32::MAX))
}

/// The states whose component has a marked edge.
fn counted_states(
    alloc: Global,
    edges: &[Edge],
    components: &[u32],
) -> Result<Vec<bool>, AllocError> {
    let mut with_marks = vec![in alloc; false; components.len()]?;
    for edge in edges {
        if edge.marked {
            mark(&mut with_marks, at(components, edge.from));
        }
    }
    let mut counted = Vec::with_capacity(alloc, components.len())?;
    for component in components {
        counted.push(is_in(&with_marks, *component))?;
    }
    Ok(counted)
}

/// The edges without those of whose letters another edge of the same state does all that they do.
fn without_covered(
    alloc: Global,
    automaton: &MarkedAutomaton,
    meter: &mut Meter,
) -> Result<Vec<Edge>, Stop> {
    let mut kept = Vec::new(alloc);
    let mut rest = automaton.edges.as_slice();
    for (state, _) in (0u32..u32::MAX).zip(&automaton.doomed) {
        let (front, back) = split_behind(rest, state);
        rest = back;
        meter.take(front.len().saturating_mul(front.len()))?;
        push_uncovered(&mut kept, automaton, front)?;
    }
    Ok(kept)
}

/// Adds those of one state's edges of which no other does all.
fn push_uncovered(
    kept: &mut Vec<Edge>,
    automaton: &MarkedAutomaton,
    edges: &[Edge],
) -> Result<(), AllocError> {
    for (place, edge) in edges.iter().enumerate() {
        if !is_covered(automaton, edges, place, edge) {
            kept.push(*edge)?;
        }
    }
    Ok(())
}

/// Whether another edge of the same state does all that this one does. Of two that do the same the first stays.
fn is_covered(automaton: &MarkedAutomaton, edges: &[Edge], place: usize, edge: &Edge) -> bool {
    for (other_place, other) in edges.iter().enumerate() {
        if other_place != place
            && does_all(automaton, other, edge)
            && (other_place < place || !does_all(automaton, edge, other))
        {
            return true;
        }
    }
    false
}

/// Whether an edge has all letters of another and dooms, or leads to the same state with no fewer marks.
fn does_all(automaton: &MarkedAutomaton, edge: &Edge, other: &Edge) -> bool {
    let is_as_bad = is_in(&automaton.doomed, edge.to)
        || (edge.to == other.to && (edge.marked || !other.marked));
    is_as_bad && edge.letters.covers(other.letters)
}
