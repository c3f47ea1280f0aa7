//! A win with fewer positions: one goes where all that lead to it can answer otherwise.

use game_arena::Stop;
use game_arena::tables::{at, is_in, mark, put};
use game_moves::{Class, Positions};
use safety_game::{Answer, Win, WinNode};
use std::alloc::{AllocError, Global};
use time_limits::Deadline;

/// Another answer to a class of a node.
#[derive(Drop)]
struct Change {
    node: u32,
    class: usize,
    answer: Answer,
}

/// Lets positions go, those first that fewest answers lead to, as long as the game's meter has steps and there is time. On an error the win
/// stands as far as it came.
pub(crate) fn drop_spare<D: Deadline>(
    alloc: Global,
    win: &mut Win<'_>,
    deadline: &D,
) -> Result<(), Stop> {
    for _ in 0..win.nodes.len() {
        if !drop_once(alloc, win, deadline)? {
            break;
        }
    }
    Ok(())
}

/// Tries each position once. Whether one went.
fn drop_once<D: Deadline>(alloc: Global, win: &mut Win<'_>, deadline: &D) -> Result<bool, Stop> {
    let order = by_uses(alloc, win)?;
    let mut kept = vec![in alloc; false; win.nodes.len()]?;
    mark_reached(win, &mut kept)?;
    let mut goes = false;
    for number in order {
        if deadline.is_over() {
            return Err(Stop::Steps);
        }
        if is_in(&kept, number) && drop_one(alloc, win, &mut kept, number)? {
            mark_reached(win, &mut kept)?;
            goes = true;
        }
    }
    Ok(goes)
}

/// Marks the nodes that are reached, and no others.
fn mark_reached(win: &Win<'_>, kept: &mut [bool]) -> Result<(), AllocError> {
    kept.fill(false);
    for number in win.reached()? {
        mark(kept, number);
    }
    Ok(())
}

/// The nodes that are reached, those first that fewest answers lead to.
fn by_uses(alloc: Global, win: &Win<'_>) -> Result<Vec<u32>, AllocError> {
    let mut order = win.reached()?;
    let mut uses = vec![in alloc; 0u32; win.nodes.len()]?;
    for number in &order {
        let Some(node) = win.nodes.get(*number as usize) else {
            continue;
        };
        for answer in &node.answers {
            count_uses(&mut uses, &answer.targets);
        }
    }
    order.sort_by_cached_key(|number| at(&uses, *number))?;
    Ok(order)
}

/// Counts each of these nodes once more.
fn count_uses(uses: &mut [u32], targets: &[u32]) {
    for target in targets {
        put(uses, *target, at(uses, *target).saturating_add(1));
    }
}

/// Lets a node go, where all classes that lead to it have other answers, and another node stands for it where it is the start.
fn drop_one(
    alloc: Global,
    win: &mut Win<'_>,
    kept: &mut [bool],
    number: u32,
) -> Result<bool, Stop> {
    let mut start = win.start;
    if number == start {
        let first = win.game.start()?;
        match kept_above(&win.nodes, &win.game.positions, kept, first, number) {
            Some(other) => start = other,
            None => return Ok(false),
        }
    }
    let Some(changes) = changes_without(alloc, win, kept, number)? else {
        return Ok(false);
    };
    for change in changes {
        put_answer(&mut win.nodes, change);
    }
    win.start = start;
    Ok(true)
}

fn put_answer(nodes: &mut [WinNode], change: Change) {
    if let Some(node) = nodes.get_mut(change.node as usize)
        && let Some(answer) = node.answers.get_mut(change.class)
    {
        *answer = change.answer;
    }
}

/// Other answers for all classes that lead to a node; None where one has none.
fn changes_without(
    alloc: Global,
    win: &mut Win<'_>,
    kept: &[bool],
    without: u32,
) -> Result<Option<Vec<Change>>, Stop> {
    let mut changes = Vec::new(alloc);
    for (number, _) in (0u32..u32::MAX).zip(kept) {
        if is_in(kept, number)
            && number != without
            && !push_changes(&mut changes, alloc, win, kept, number, without)?
        {
            return Ok(None);
        }
    }
    Ok(Some(changes))
}

/// Adds other answers for the classes of one node that lead to another. Whether there are such for all.
fn push_changes(
    changes: &mut Vec<Change>,
    alloc: Global,
    win: &mut Win<'_>,
    kept: &[bool],
    number: u32,
    without: u32,
) -> Result<bool, Stop> {
    let Some(node) = win.nodes.get(number as usize) else {
        return Ok(true);
    };
    for (place, (class, answer)) in node.classes.iter().zip(&node.answers).enumerate() {
        if !answer.targets.contains(&without) {
            continue;
        }
        let tried = class.candidates.len().saturating_mul(kept.len());
        win.game.meter.take(tried / 4)?;
        match answer_without(alloc, &win.nodes, &win.game.positions, kept, class, without)? {
            Some(answer) => changes.push(Change {
                node: number,
                class: place,
                answer,
            })?,
            None => return Ok(false),
        }
    }
    Ok(true)
}

/// An answer to a class that leads to other nodes that are kept.
fn answer_without(
    alloc: Global,
    nodes: &[WinNode],
    positions: &Positions,
    kept: &[bool],
    class: &Class,
    without: u32,
) -> Result<Option<Answer>, AllocError> {
    for (place, candidate) in class.candidates.iter().enumerate() {
        let mut targets = Vec::with_capacity(alloc, candidate.successors.len())?;
        for successor in &candidate.successors {
            match kept_above(nodes, positions, kept, *successor, without) {
                Some(target) => targets.push(target)?,
                None => break,
            }
        }
        if targets.len() == candidate.successors.len() {
            return Ok(Some(Answer {
                candidate: place,
                targets,
            }));
        }
    }
    Ok(None)
}

/// The first other node that is kept and whose position is at least the successor.
fn kept_above(
    nodes: &[WinNode],
    positions: &Positions,
    kept: &[bool],
    successor: u32,
    without: u32,
) -> Option<u32> {
    for (number, node) in (0u32..u32::MAX).zip(nodes) {
        if number != without
            && is_in(kept, number)
            && positions.is_at_most(successor, node.position)
        {
            return Some(number);
        }
    }
    None
}
