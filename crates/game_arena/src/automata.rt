//! An automaton with marks on edges, made small before it is played on.

use crate::graphs::{Graph, Link};
use crate::literals::Literals;
use crate::stops::{Meter, Stop};
use crate::tables::{at, is_in, mark};
use indexmap::IndexSet;
use machine_model::Automaton;
use std::alloc::{AllocError, Global};

/// An edge. It is marked where it leads into a rejecting state of its own component.
#[derive(Clone, Copy)]
pub(crate) struct Edge {
    pub(crate) from: u32,
    pub(crate) to: u32,
    pub(crate) letters: Literals,
    pub(crate) marked: bool,
}

/// States and edges, which are sorted by their source.
#[derive(Drop)]
pub(crate) struct MarkedAutomaton {
    pub(crate) edges: Vec<Edge>,
    pub(crate) start: u32,
    /// For each state whether each word from it has a run that meets marks without end.
    pub(crate) doomed: Vec<bool>,
}

/// An edge as its source sees it: the class that it leads to, the signals that are on and those that are off, and whether it is marked.
type Ending = (u32, u64, u64, bool);

/// The automaton without states that lead to no mark, with states that have the same edges joined.
pub(crate) fn reduced(
    alloc: Global,
    automaton: &Automaton,
    meter: &mut Meter,
) -> Result<MarkedAutomaton, Stop> {
    let states = automaton.states() as usize;
    let edges = marked_edges(alloc, automaton)?;
    meter.take(edges.len())?;
    let doomed = doomed_states(alloc, &edges, states)?;
    let useful = useful_states(alloc, &edges, &doomed)?;
    let kept = useful_edges(alloc, &edges, &doomed, &useful)?;
    let classes = classes_of(alloc, &kept, &doomed, meter)?;
    joined(alloc, &kept, &doomed, &classes)
}

/// The edges between useful states, but for those of doomed ones.
fn useful_edges(
    alloc: Global,
    edges: &[Edge],
    doomed: &[bool],
    useful: &[bool],
) -> Result<Vec<Edge>, AllocError> {
    let mut kept = Vec::new(alloc);
    for edge in edges {
        if !is_in(doomed, edge.from) && is_in(useful, edge.from) && is_in(useful, edge.to) {
            kept.push(*edge)?;
        }
    }
    Ok(kept)
}

/// The edges sorted by their source, with their marks.
fn marked_edges(alloc: Global, automaton: &Automaton) -> Result<Vec<Edge>, AllocError> {
    let mut edges = Vec::new(alloc);
    for edge in automaton.edges() {
        edges.push(Edge {
            from: edge.from,
            to: edge.to,
            letters: Literals {
                on: edge.cube.must,
                off: edge.cube.not,
            },
            marked: edge.to < automaton.states() && automaton.is_rejecting(edge.to),
        })?;
    }
    edges.sort_by_key(|edge| edge.from)?;
    let components = components_of(alloc, &edges, automaton.states() as usize)?;
    for edge in edges.iter_mut() {
        edge.marked = edge.marked && are_joined(&components, edge.from, edge.to);
    }
    Ok(edges)
}

/// The components of states by edges that are sorted by their source.
pub(crate) fn components_of(
    alloc: Global,
    edges: &[Edge],
    states: usize,
) -> Result<Vec<u32>, AllocError> {
    let mut links = Vec::new(alloc);
    for edge in edges {
        links.push(Link {
            from: edge.from,
            to: edge.to,
        })?;
    }
    Graph::new(alloc, states, &links)?.components(alloc)
}

/// Whether two states are in one component.
pub(crate) fn are_joined(components: &[u32], one: u32, other: u32) -> bool {
    match (components.get(one as usize), components.get(other as usize)) {
        (Some(first), Some(second)) => *first == *second,
        _ => false,
    }
}

/// The states from which each word has a run that meets marks without end, as far as one sees at once.
fn doomed_states(alloc: Global, edges: &[Edge], states: usize) -> Result<Vec<bool>, AllocError> {
    let mut doomed = vec![in alloc; false; states]?;
    for _ in 0..states {
        if !doom_more(&mut doomed, edges) {
            break;
        }
    }
    Ok(doomed)
}

/// Marks the states that a look at each edge dooms. Whether there are any.
fn doom_more(doomed: &mut [bool], edges: &[Edge]) -> bool {
    let mut grows = false;
    for edge in edges {
        let is_ring = edge.marked && edge.from == edge.to;
        let dooms = edge.letters.is_any() && (is_ring || is_in(doomed, edge.to));
        if dooms && !is_in(doomed, edge.from) {
            mark(doomed, edge.from);
            grows = true;
        }
    }
    grows
}

/// The states that lead to a mark.
fn useful_states(alloc: Global, edges: &[Edge], doomed: &[bool]) -> Result<Vec<bool>, AllocError> {
    let mut useful = doomed.to_vec(alloc)?;
    for edge in edges {
        if edge.marked {
            mark(&mut useful, edge.from);
        }
    }
    for _ in 0..doomed.len() {
        if !mark_before(&mut useful, edges) {
            break;
        }
    }
    Ok(useful)
}

/// Marks the sources of edges that lead to marked states. Whether there are new ones.
fn mark_before(useful: &mut [bool], edges: &[Edge]) -> bool {
    let mut grows = false;
    for edge in edges.iter().rev() {
        if is_in(useful, edge.to) && !is_in(useful, edge.from) {
            mark(useful, edge.from);
            grows = true;
        }
    }
    grows
}

/// For each state the number of its class: the states of one class have the same edges into the same classes.
fn classes_of(
    alloc: Global,
    edges: &[Edge],
    doomed: &[bool],
    meter: &mut Meter,
) -> Result<Vec<u32>, Stop> {
    let mut classes = vec![in alloc; 0u32; doomed.len()]?;
    let mut count = 1;
    for _ in 0..doomed.len() {
        meter.take(edges.len())?;
        let finer = finer_classes(alloc, edges, doomed, &classes)?;
        let finer_count = finer.iter().copied().max().unwrap_or(0).saturating_add(1);
        classes = finer;
        if finer_count == count {
            break;
        }
        count = finer_count;
    }
    Ok(classes)
}

/// The classes of states whose edges lead into the same of these classes.
fn finer_classes(
    alloc: Global,
    edges: &[Edge],
    doomed: &[bool],
    classes: &[u32],
) -> Result<Vec<u32>, AllocError> {
    let mut met = IndexSet::new(alloc);
    let mut finer = Vec::new(alloc);
    let mut rest = edges;
    for (state, is_doomed) in (0u32..u32::MAX).zip(doomed) {
        let (front, back) = split_behind(rest, state);
        rest = back;
        let mut endings = endings_of(alloc, front, classes)?;
        if *is_doomed {
            endings.push((u32::MAX, 0, 0, true))?;
        }
        let (class, _) = met.insert_full(endings)?;
        finer.push(u32::try_from(class).unwrap_or(u32::MAX))?;
    }
    Ok(finer)
}

/// The edges that leave states up to this one, and the others. The edges are sorted by their source.
pub(crate) fn split_behind(edges: &[Edge], state: u32) -> (&[Edge], &[Edge]) {
    edges.split_at(edges.partition_point(|edge| edge.from <= state))
}

/// The edges of one state as it sees them, in order.
fn endings_of(alloc: Global, edges: &[Edge], classes: &[u32]) -> Result<Vec<Ending>, AllocError> {
    let mut endings = Vec::new(alloc);
    for edge in edges {
        endings.push((
            at(classes, edge.to),
            edge.letters.on,
            edge.letters.off,
            edge.marked,
        ))?;
    }
    endings.sort_unstable();
    endings.dedup();
    Ok(endings)
}

/// The automaton of the classes that are reached from the start.
fn joined(
    alloc: Global,
    edges: &[Edge],
    doomed: &[bool],
    classes: &[u32],
) -> Result<MarkedAutomaton, Stop> {
    let mut firsts = Vec::new(alloc);
    for (state, class) in (0u32..u32::MAX).zip(classes) {
        if *class as usize == firsts.len() {
            firsts.push(state)?;
        }
    }
    let mut met = IndexSet::new(alloc);
    met.insert(at(classes, 0))?;
    let mut made = MarkedAutomaton {
        edges: Vec::new(alloc),
        start: 0,
        doomed: Vec::new(alloc),
    };
    for place in 0..firsts.len() {
        let Some(class) = met.get_index(place).copied() else {
            break;
        };
        let first = at(&firsts, class);
        made.doomed.push(is_in(doomed, first))?;
        push_joined(&mut made.edges, place, first, edges, classes, &mut met)?;
    }
    Ok(made)
}

/// Adds the edges of a class, which are those of its first state.
fn push_joined(
    made: &mut Vec<Edge>,
    place: usize,
    first: u32,
    edges: &[Edge],
    classes: &[u32],
    met: &mut IndexSet<u32>,
) -> Result<(), Stop> {
    let behind = match first.checked_sub(1) {
        Some(before) => split_behind(edges, before).1,
        None => edges,
    };
    for edge in behind {
        if edge.from != first {
            break;
        }
        let (to, _) = met.insert_full(at(classes, edge.to))?;
        made.push(Edge {
            from: u32::try_from(place).unwrap_or(u32::MAX),
            to: u32::try_from(to).unwrap_or(u32::MAX),
            ..*edge
        })?;
    }
    Ok(())
}
