//! Machines whose moves are for classes of letters.

use game_arena::tables::at;
use game_arena::{Literals, Player, Stop};
use game_moves::Reading;
use indexmap::IndexSet;
use letters_and_lassos::Kind;
use safety_game::{Win, WinNode};
use std::alloc::{AllocError, Global};
use time_limits::Deadline;

/// What a machine does in one state on some letters that it reads: what it writes, as a whole letter, and the state after it.
#[derive(Clone, Copy)]
pub struct Move {
    pub when: Literals,
    pub writes: u64,
    pub next: u32,
}

/// A machine. Each letter that is read fits some move of each state; the first that it fits decides. The start is state 0.
#[derive(Drop)]
pub struct ClassMachine {
    pub player: Player,
    pub states: Vec<Vec<Move>>,
}

/// A machine has at most so many moves.
pub const MOST_MOVES: usize = 1_000_000;

impl ClassMachine {
    /// The machine of a win, with the states that are reached.
    pub(crate) fn of_win<D: Deadline>(
        alloc: Global,
        win: &mut Win<'_>,
        deadline: &D,
    ) -> Result<ClassMachine, Stop> {
        let mut states = Vec::new(alloc);
        let mut count = 0usize;
        let mut met = IndexSet::new(alloc);
        met.insert(win.start)?;
        for place in 0..win.nodes.len() {
            let Some(node) = met.get_index(place).copied() else {
                break;
            };
            if deadline.is_over() {
                return Err(Stop::Steps);
            }
            let mut moves = moves_of(alloc, win, node)?;
            renumber(&mut moves, &mut met)?;
            count = count.saturating_add(moves.len());
            if count > MOST_MOVES {
                return Err(Stop::Bytes);
            }
            states.push(moves)?;
        }
        Ok(ClassMachine {
            player: win.game.arena.player,
            states,
        })
    }

    /// The number of its moves.
    pub(crate) fn moves(&self) -> usize {
        let mut count = 0usize;
        for moves in &self.states {
            count = count.saturating_add(moves.len());
        }
        count
    }

    pub(crate) fn copy(&self) -> Result<ClassMachine, AllocError> {
        Ok(ClassMachine {
            player: self.player,
            states: self.states.clone()?,
        })
    }

    /// The machine of the states that are reached, numbered as they are met.
    pub(crate) fn reached(&self, alloc: Global) -> Result<ClassMachine, AllocError> {
        let mut states = Vec::new(alloc);
        let mut met = IndexSet::new(alloc);
        met.insert(0u32)?;
        for place in 0..self.states.len() {
            let Some(state) = met.get_index(place).copied() else {
                break;
            };
            let mut moves = match self.states.get(state as usize) {
                Some(moves) => moves.clone()?,
                None => Vec::new(alloc),
            };
            renumber(&mut moves, &mut met)?;
            states.push(moves)?;
        }
        Ok(ClassMachine {
            player: self.player,
            states,
        })
    }
}

/// Numbers the next states of moves as they are met.
fn renumber(moves: &mut [Move], met: &mut IndexSet<u32>) -> Result<(), AllocError> {
    for step in moves.iter_mut() {
        let (next, _) = met.insert_full(step.next)?;
        step.next = u32::try_from(next).unwrap_or(0);
    }
    Ok(())
}

/// The moves of a node, whose next states are nodes.
fn moves_of(alloc: Global, win: &mut Win<'_>, node: u32) -> Result<Vec<Move>, Stop> {
    match win.game.arena.player.kind {
        Kind::Mealy => answering_moves(alloc, win, node),
        Kind::Moore => writing_moves(alloc, win, node),
    }
}

fn answering_moves(alloc: Global, win: &mut Win<'_>, number: u32) -> Result<Vec<Move>, Stop> {
    let mut moves = Vec::new(alloc);
    let Some(node) = win.nodes.get(number as usize) else {
        return Ok(moves);
    };
    for reading in win.game.readings(node.position)? {
        if let Some(step) = answering_move(node, reading) {
            moves.push(step)?;
        }
    }
    Ok(moves)
}

/// What a node answers to the letters of one of its classes.
fn answering_move(node: &WinNode, reading: Reading) -> Option<Move> {
    for (class, answer) in node.classes.iter().zip(&node.answers) {
        if class.place == reading.class {
            let candidate = class.candidates.get(answer.candidate)?;
            return Some(Move {
                when: reading.when,
                writes: candidate.writes,
                next: answer.targets.first().copied().unwrap_or(0),
            });
        }
    }
    None
}

fn writing_moves(alloc: Global, win: &mut Win<'_>, number: u32) -> Result<Vec<Move>, Stop> {
    let mut moves = Vec::new(alloc);
    let Some(node) = win.nodes.get(number as usize) else {
        return Ok(moves);
    };
    let (Some(class), Some(answer)) = (node.classes.first(), node.answers.first()) else {
        return Ok(moves);
    };
    let Some(candidate) = class.candidates.get(answer.candidate) else {
        return Ok(moves);
    };
    for reading in win.game.readings_after(node.position, candidate)? {
        moves.push(Move {
            when: reading.when,
            writes: candidate.writes,
            next: at(&answer.targets, reading.class),
        })?;
    }
    Ok(moves)
}
