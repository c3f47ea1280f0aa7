//! A win with greater and so with fewer positions: numbers are raised and pairs joined as long as all positions stay answered.

use crate::answering::{first_above, with_answers};
use game_arena::Stop;
use game_moves::Game;
use safety_game::{Answer, Win, WinNode};
use std::alloc::{AllocError, Global};
use time_limits::Deadline;

/// So many times all positions are gone through.
const MOST_ROUNDS: usize = 20;

/// So many steps more than the win took may be used to find the answers anew.
const MOST_REBUILDING: u64 = 1_000_000;

/// Makes the positions of a win great, as long as the game's meter has steps and there is time. They have answers among each other then as
/// before.
pub(crate) fn make_great<D: Deadline>(
    alloc: Global,
    win: &mut Win<'_>,
    deadline: &D,
) -> Result<(), Stop> {
    let mut pool = Vec::new(alloc);
    for node in &win.nodes {
        pool.push(node.position)?;
    }
    match grow(alloc, &mut win.game, &mut pool, deadline) {
        Err(Stop::NoMemory) => return Err(Stop::NoMemory),
        _ => win
            .game
            .meter
            .refill(win.steps.saturating_add(MOST_REBUILDING)),
    }
    if let Some(nodes) = rebuilt(alloc, &mut win.game, &pool, deadline)? {
        win.nodes = nodes;
        win.start = 0;
    }
    Ok(())
}

fn grow<D: Deadline>(
    alloc: Global,
    game: &mut Game<'_>,
    pool: &mut Vec<u32>,
    deadline: &D,
) -> Result<(), Stop> {
    for _ in 0..MOST_ROUNDS {
        let before = pool.len();
        raise_all(alloc, game, pool, deadline)?;
        let joins = join_all(alloc, game, pool, deadline)?;
        if !joins && pool.len() >= before {
            break;
        }
    }
    Ok(())
}

/// Raises the numbers of each position.
fn raise_all<D: Deadline>(
    alloc: Global,
    game: &mut Game<'_>,
    pool: &mut Vec<u32>,
    deadline: &D,
) -> Result<(), Stop> {
    let mut place = 0usize;
    for _ in 0..pool.len() {
        let Some(position) = pool.get(place).copied() else {
            break;
        };
        if deadline.is_over() {
            return Err(Stop::Steps);
        }
        let greater = raised(alloc, game, pool, position)?;
        place = put(alloc, game, pool, place, greater)?.saturating_add(1);
    }
    Ok(())
}

/// A position at least this one that has answers in the pool or itself.
fn raised(alloc: Global, game: &mut Game<'_>, pool: &[u32], position: u32) -> Result<u32, Stop> {
    let mut greatest = position;
    for state in 0u32..u32::MAX {
        let Some(byte) = game.positions.bytes(greatest).get(state as usize).copied() else {
            break;
        };
        let top = top_of(game, state);
        for wanted in [top, byte.saturating_add(1).min(top)] {
            greatest = raised_at(alloc, game, pool, greatest, state, wanted)?;
        }
    }
    Ok(greatest)
}

/// The greatest byte that a state may have.
fn top_of(game: &Game<'_>, state: u32) -> u8 {
    if game.arena.is_doomed(state) {
        return 0;
    }
    if game.arena.is_counted(state) {
        game.most
    } else {
        1
    }
}

/// The position with this byte at a state, where that is greater and it has answers, else the position itself.
fn raised_at(
    alloc: Global,
    game: &mut Game<'_>,
    pool: &[u32],
    position: u32,
    state: u32,
    byte: u8,
) -> Result<u32, Stop> {
    let mut bytes = game.positions.copy(position)?;
    match bytes.get_mut(state as usize) {
        Some(own) if *own < byte => *own = byte,
        _ => return Ok(position),
    }
    let greater = game.positions.number_of(&bytes)?;
    match with_answers(alloc, game, greater, pool)? {
        Some(_) => Ok(greater),
        None => Ok(position),
    }
}

/// Joins pairs of positions. Whether some were.
fn join_all<D: Deadline>(
    alloc: Global,
    game: &mut Game<'_>,
    pool: &mut Vec<u32>,
    deadline: &D,
) -> Result<bool, Stop> {
    let mut joins = false;
    let mut place = 0usize;
    for _ in 0..pool.len() {
        let mut other = place.saturating_add(1);
        for _ in 0..pool.len() {
            let (Some(one), Some(second)) = (pool.get(place).copied(), pool.get(other).copied())
            else {
                break;
            };
            if deadline.is_over() {
                return Err(Stop::Steps);
            }
            let both = joined(game, one, second)?;
            if with_answers(alloc, game, both, pool)?.is_some() {
                place = put(alloc, game, pool, place, both)?;
                other = place;
                joins = true;
            }
            other = other.saturating_add(1);
        }
        place = place.saturating_add(1);
    }
    Ok(joins)
}

/// The position that has the greater number of both in each state.
fn joined(game: &mut Game<'_>, one: u32, other: u32) -> Result<u32, Stop> {
    let mut bytes = game.positions.copy(one)?;
    for (byte, second) in bytes.iter_mut().zip(game.positions.bytes(other)) {
        *byte = (*second).max(*byte);
    }
    game.positions.number_of(&bytes)
}

/// Puts a position into the pool at a place, where it stands for all that are at most it; its place from then on.
fn put(
    alloc: Global,
    game: &Game<'_>,
    pool: &mut Vec<u32>,
    place: usize,
    position: u32,
) -> Result<usize, AllocError> {
    let mut before = 0usize;
    let mut is_in = false;
    let mut kept = Vec::with_capacity(alloc, pool.len())?;
    for (at, other) in pool.iter().enumerate() {
        if at == place || *other == position {
            if !is_in {
                kept.push(position)?;
            }
            is_in = true;
        } else if !game.positions.is_at_most(*other, position) {
            kept.push(*other)?;
            before = before.saturating_add(usize::from(at < place));
        }
    }
    *pool = kept;
    Ok(before)
}

/// The nodes of the pool that are reached, with answers in it; None where there is no start or an answer is missing.
fn rebuilt<D: Deadline>(
    alloc: Global,
    game: &mut Game<'_>,
    pool: &[u32],
    deadline: &D,
) -> Result<Option<Vec<WinNode>>, Stop> {
    let start = game.start()?;
    let Some(first) = first_above(&game.positions, start, pool) else {
        return Ok(None);
    };
    let mut order = vec![in alloc; first]?;
    let mut nodes = Vec::new(alloc);
    for place in 0..pool.len() {
        let Some(position) = order.get(place).copied() else {
            break;
        };
        if deadline.is_over() {
            return Ok(None);
        }
        let mut preferred = order.clone()?;
        preferred.extend_from_slice(pool)?;
        let Some(own) = with_answers(alloc, game, position, &preferred)? else {
            return Ok(None);
        };
        let mut answers = own.answers;
        for answer in answers.iter_mut() {
            number_targets(answer, &mut order)?;
        }
        nodes.push(WinNode {
            position,
            classes: own.classes,
            answers,
        })?;
    }
    Ok(Some(nodes))
}

/// Gives each target its place in the order, at whose end new ones are added.
fn number_targets(answer: &mut Answer, order: &mut Vec<u32>) -> Result<(), AllocError> {
    for target in answer.targets.iter_mut() {
        let place = place_of(order, *target);
        if place == order.len() {
            order.push(*target)?;
        }
        *target = u32::try_from(place).unwrap_or(0);
    }
    Ok(())
}

/// The place of a position, or the length where it isn't there.
fn place_of(order: &[u32], position: u32) -> usize {
    for (place, other) in order.iter().enumerate() {
        if *other == position {
            return place;
        }
    }
    order.len()
}
