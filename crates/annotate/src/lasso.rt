//! A run of the circuit on which the text is false: a way to a pair with a rejecting state that stands on a ring of ways.

use crate::components::{first_way, is_rejecting, number_of, way_at};
use crate::graph::{Graph, Way};
use letters_and_lassos::Letter;
use names_and_numbers::Name;
use std::alloc::{AllocError, Global};

/// The letters of a run, its stem and its ring.
#[derive(Drop)]
pub struct Run {
    pub stem: Vec<Letter>,
    pub ring: Vec<Letter>,
}

/// A run that meets a rejecting state again and again, if there is one.
pub(crate) fn bad_run(
    alloc: Global,
    graph: &Graph,
    component: &[usize],
    rejects: &[bool],
) -> Result<Option<Run>, AllocError> {
    let Some(way) = way_on_ring(&graph.ways, component, rejects) else {
        return Ok(None);
    };
    let stem = letters_to(alloc, &graph.met_by, way.from)?;
    let mut ring = Vec::new(alloc);
    ring.push(way.letter)?;
    let back = ways_inside(alloc, &graph.ways, component, way.to, graph.pairs.len())?;
    let letters = if way.to == way.from {
        Vec::new(alloc)
    } else {
        letters_to(alloc, &back, way.from)?
    };
    ring.extend_from_slice(&letters)?;
    Ok(Some(Run { stem, ring }))
}

/// The first way inside a component that leads to a rejecting state.
fn way_on_ring(ways: &[Way], component: &[usize], rejects: &[bool]) -> Option<Way> {
    for way in ways {
        let inside = number_of(component, way.from) == number_of(component, way.to);
        if inside && is_rejecting(rejects, way.to) {
            return Some(*way);
        }
    }
    None
}

/// The letters on the ways by which a pair was met.
fn letters_to(
    alloc: Global,
    met_by: &[Option<Way>],
    place: usize,
) -> Result<Vec<Letter>, AllocError> {
    let mut letters = Vec::new(alloc);
    let mut place = place;
    for _ in 0..met_by.len() {
        let Some(Some(way)) = met_by.get(place).copied() else {
            break;
        };
        letters.push(way.letter)?;
        place = way.from;
    }
    letters.reverse();
    Ok(letters)
}

/// For each pair of a component the way by which a walk from this pair, inside the component, meets it first.
fn ways_inside(
    alloc: Global,
    ways: &[Way],
    component: &[usize],
    start: usize,
    count: usize,
) -> Result<Vec<Option<Way>>, AllocError> {
    let mut met_by: Vec<Option<Way>> = vec![in alloc; None; count]?;
    let mut queue = Vec::new(alloc);
    queue.push(start)?;
    for at in 0..count {
        let Some(node) = queue.get(at).copied() else {
            break;
        };
        let mut place = first_way(ways, node);
        for _ in 0..ways.len() {
            let Some(way) = way_at(ways, place, node) else {
                break;
            };
            place = place.saturating_add(1);
            let inside = number_of(component, way.to) == number_of(component, start);
            if inside && way.to != start && is_none_at(&met_by, way.to) {
                if let Some(met) = met_by.get_mut(way.to) {
                    *met = Some(way);
                }
                queue.push(way.to)?;
            }
        }
    }
    Ok(met_by)
}

fn is_none_at(met_by: &[Option<Way>], place: usize) -> bool {
    matches!(met_by.get(place), Some(None))
}

/// Appends the run as the word of `lasso`: a line for each letter, with the names of its signals.
pub fn push_run(
    bytes: &mut Vec<u8>,
    run: &Run,
    inputs: &[Name],
    outputs: &[Name],
) -> Result<(), AllocError> {
    bytes.extend_from_slice(b"stem\n")?;
    for letter in &run.stem {
        push_letter(bytes, *letter, inputs, outputs)?;
    }
    bytes.extend_from_slice(b"ring\n")?;
    for letter in &run.ring {
        push_letter(bytes, *letter, inputs, outputs)?;
    }
    Ok(())
}

fn push_letter(
    bytes: &mut Vec<u8>,
    letter: Letter,
    inputs: &[Name],
    outputs: &[Name],
) -> Result<(), AllocError> {
    let before = bytes.len();
    let after = push_names(bytes, letter, 0, inputs)?;
    push_names(bytes, letter, after, outputs)?;
    if bytes.len() == before {
        bytes.push(b'-')?;
    }
    bytes.push(b'\n')?;
    Ok(())
}

/// Appends the names of the letter's signals from this one on, a space before each but the first of a line, and gives the signal behind.
fn push_names(
    bytes: &mut Vec<u8>,
    letter: Letter,
    first: u32,
    names: &[Name],
) -> Result<u32, AllocError> {
    let mut signal = first;
    for name in names {
        if letter.has(signal) {
            if bytes.last() != Some(&b'\n') {
                bytes.push(b' ')?;
            }
            bytes.extend_from_slice(name.bytes())?;
        }
        signal = signal.saturating_add(1);
    }
    Ok(signal)
}
