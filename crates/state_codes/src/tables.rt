//! Machines as tables, and what their moves and outputs are as functions of the state.

use crate::state_sets::{normal_set, set_of};
use indexmap::{IndexMap, IndexSet};
use std::alloc::{AllocError, Global};

/// What a machine does on each letter, its states in the order in which they are reached. The start is state 0.
#[derive(Drop)]
pub struct Table {
    pub states: usize,
    pub letters: usize,
    /// The numbers of signals that are read and that are written.
    pub inputs: u32,
    pub outputs: u32,
    /// For each state the next ones on all letters, and what is written.
    pub next: Vec<u32>,
    pub written: Vec<u64>,
}

/// For each state the next one on some letter, and the number of letters of which that is so, but at most `MOST_TELLING`.
#[derive(Drop)]
pub(crate) struct Move {
    pub(crate) next: Vec<u32>,
    pub(crate) letters: u64,
}

/// Where an output is written on some letter, and the number of such letters and outputs, but at most `MOST_TELLING`.
#[derive(Drop)]
pub(crate) struct Writing {
    pub(crate) states: Vec<u64>,
    pub(crate) letters: u64,
}

/// The moves and the outputs of a machine, each once.
#[derive(Drop)]
pub(crate) struct Functions {
    pub(crate) states: usize,
    pub(crate) moves: Vec<Move>,
    pub(crate) writings: Vec<Writing>,
    /// How often a letter has to be looked at to tell which writing of an output holds.
    pub(crate) choices: u64,
}

/// More letters than so many tell nothing more.
const MOST_TELLING: u64 = 256;

impl Table {
    /// What follows on a letter; the start where the table doesn't say it.
    pub fn next(&self, state: usize, letter: usize) -> u32 {
        let place = state.saturating_mul(self.letters).saturating_add(letter);
        self.next.get(place).copied().unwrap_or(0)
    }

    /// What is written on a letter, the first signal as bit 0.
    pub fn written(&self, state: usize, letter: usize) -> u64 {
        let place = state.saturating_mul(self.letters).saturating_add(letter);
        self.written.get(place).copied().unwrap_or(0)
    }

    /// Whether what is written depends on the state alone.
    pub fn writes_by_state(&self) -> bool {
        self.written.chunks(self.letters.max(1)).all(|row| {
            let first = row.first();
            row.iter().all(|own| Some(own) == first)
        })
    }

    pub(crate) fn functions(&self, alloc: Global) -> Result<Functions, AllocError> {
        let (writings, choices) = self.writings(alloc)?;
        Ok(Functions {
            states: self.states,
            moves: self.moves(alloc)?,
            writings,
            choices,
        })
    }

    fn moves(&self, alloc: Global) -> Result<Vec<Move>, AllocError> {
        let mut counts: IndexMap<Vec<u32>, u64> = IndexMap::new(alloc);
        for letter in 0..self.letters {
            let mut next = Vec::with_capacity(alloc, self.states)?;
            for state in 0..self.states {
                next.push(self.next(state, letter))?;
            }
            let count = counts.get(&next).copied().unwrap_or(0);
            counts.insert(next, count.saturating_add(1).min(MOST_TELLING))?;
        }
        let mut moves = Vec::new(alloc);
        for (next, letters) in counts {
            moves.push(Move { next, letters })?;
        }
        Ok(moves)
    }

    fn writings(&self, alloc: Global) -> Result<(Vec<Writing>, u64), AllocError> {
        let mut counts: IndexMap<Vec<u64>, u64> = IndexMap::new(alloc);
        let mut choices = 0u64;
        for output in 0..self.outputs.min(64) {
            let mut own: IndexSet<Vec<u64>> = IndexSet::new(alloc);
            for letter in 0..self.letters {
                let states = self.writing(alloc, output, letter)?;
                let count = counts.get(&states).copied().unwrap_or(0);
                own.insert(Vec::from_slice(alloc, &states)?)?;
                counts.insert(states, count.saturating_add(1).min(MOST_TELLING))?;
            }
            choices = choices.saturating_add(own.len().saturating_sub(1) as u64);
        }
        let mut writings = Vec::new(alloc);
        for (states, letters) in counts {
            writings.push(Writing { states, letters })?;
        }
        Ok((writings, choices))
    }

    /// Where an output is written on a letter, or where it isn't: the set without the start.
    fn writing(&self, alloc: Global, output: u32, letter: usize) -> Result<Vec<u64>, AllocError> {
        let mut is_written = Vec::with_capacity(alloc, self.states)?;
        for state in 0..self.states {
            let signals = self.written(state, letter);
            is_written.push(signals.checked_shr(output).unwrap_or(0) & 1 == 1)?;
        }
        Ok(normal_set(set_of(alloc, &is_written)?))
    }
}
