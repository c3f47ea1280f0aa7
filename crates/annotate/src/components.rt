//! The strongly connected components of a graph, and how many rejecting states a way to each pair may meet (Kosaraju's algorithm).

use crate::graph::Way;
use std::alloc::{AllocError, Global};

/// For each pair the number of its component; no way leads to a smaller one. Linear in the ways, but that they are sorted once.
pub fn components(alloc: Global, count: usize, ways: &[Way]) -> Result<Vec<usize>, AllocError> {
    let order = finished(alloc, count, ways)?;
    let turned = turned(alloc, ways)?;
    let mut component = vec![in alloc; usize::MAX; count]?;
    let mut number = 0usize;
    for node in order.iter().rev() {
        if number_of(&component, *node) == usize::MAX {
            flood(alloc, &turned, *node, number, &mut component)?;
            number = number.saturating_add(1);
        }
    }
    Ok(component)
}

/// The number at a place.
pub fn number_of(numbers: &[usize], place: usize) -> usize {
    numbers.get(place).copied().unwrap_or(0)
}

fn put(numbers: &mut [usize], place: usize, number: usize) {
    if let Some(at) = numbers.get_mut(place) {
        *at = number;
    }
}

/// The place of the first way that begins at a pair.
pub(crate) fn first_way(ways: &[Way], from: usize) -> usize {
    ways.partition_point(|way| way.from < from)
}

/// The way at this place, where it begins at the pair.
pub(crate) fn way_at(ways: &[Way], place: usize, from: usize) -> Option<Way> {
    let way = ways.get(place).copied()?;
    if way.from == from { Some(way) } else { None }
}

/// The pairs that are reached from the first, those first that a walk in depth leaves first.
fn finished(alloc: Global, count: usize, ways: &[Way]) -> Result<Vec<usize>, AllocError> {
    let mut seen = vec![in alloc; 0usize; count]?;
    let mut order = Vec::new(alloc);
    let mut stack = Vec::new(alloc);
    put(&mut seen, 0, 1);
    stack.push((0usize, first_way(ways, 0)))?;
    for _ in 0..u64::MAX {
        let Some((node, place)) = stack.pop() else {
            break;
        };
        match way_at(ways, place, node) {
            None => order.push(node)?,
            Some(way) => {
                stack.push((node, place.saturating_add(1)))?;
                if number_of(&seen, way.to) == 0 && way.to < count {
                    put(&mut seen, way.to, 1);
                    stack.push((way.to, first_way(ways, way.to)))?;
                }
            }
        }
    }
    Ok(order)
}

/// The ways turned round, by the pair that they lead to.
fn turned(alloc: Global, ways: &[Way]) -> Result<Vec<Way>, AllocError> {
    let mut turned = Vec::new(alloc);
    for way in ways {
        turned.push(Way {
            from: way.to,
            to: way.from,
            letter: way.letter,
        })?;
    }
    turned.sort_unstable_by_key(|way| way.from);
    Ok(turned)
}

/// Gives a number to all pairs without one that are reached from this pair.
fn flood(
    alloc: Global,
    ways: &[Way],
    node: usize,
    number: usize,
    component: &mut [usize],
) -> Result<(), AllocError> {
    let mut stack = Vec::new(alloc);
    put(component, node, number);
    stack.push((node, first_way(ways, node)))?;
    for _ in 0..u64::MAX {
        let Some((node, place)) = stack.pop() else {
            break;
        };
        let Some(way) = way_at(ways, place, node) else {
            continue;
        };
        stack.push((node, place.saturating_add(1)))?;
        if component.get(way.to).copied() == Some(usize::MAX) {
            put(component, way.to, number);
            stack.push((way.to, first_way(ways, way.to)))?;
        }
    }
    Ok(())
}

/// How many rejecting states a way to each pair may meet, its own counted, where no ring of ways meets one.
pub fn numbers(
    alloc: Global,
    component: &[usize],
    ways: &[Way],
    rejects: &[bool],
) -> Result<Vec<usize>, AllocError> {
    let mut of_component = vec![in alloc; 0usize; component.len()]?;
    let start = number_of(component, 0);
    put(&mut of_component, start, weight(rejects, 0));
    let mut sorted = ways.to_vec(alloc)?;
    sorted.sort_unstable_by_key(|way| number_of(component, way.from));
    for way in &sorted {
        let before = number_of(&of_component, number_of(component, way.from));
        let to = number_of(component, way.to);
        let least = before.saturating_add(weight(rejects, way.to));
        if number_of(&of_component, to) < least {
            put(&mut of_component, to, least);
        }
    }
    let mut numbers = Vec::new(alloc);
    for own in component {
        numbers.push(number_of(&of_component, *own))?;
    }
    Ok(numbers)
}

/// 1 where the pair's state is rejecting, else 0.
fn weight(rejects: &[bool], place: usize) -> usize {
    usize::from(is_rejecting(rejects, place))
}

/// Whether the pair's state is rejecting.
pub fn is_rejecting(rejects: &[bool], place: usize) -> bool {
    rejects.get(place).copied().unwrap_or(false)
}
