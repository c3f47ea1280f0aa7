//! Supports: of each state the set of the automaton's states that it stands in pairs with.

use crate::letter_sets::{add, missing};
use crate::machines::short;
use crate::numbers::Numbers;
use std::alloc::{AllocError, Global};

/// The support of each state.
#[derive(Drop)]
pub(crate) struct Supports {
    sets: Vec<Vec<u64>>,
}

impl Supports {
    pub(crate) fn of(
        alloc: Global,
        numbers: &Numbers,
        states: u32,
    ) -> Result<Supports, AllocError> {
        let mut sets = Vec::new(alloc);
        for state in 0..states {
            sets.push(support_of(alloc, numbers, state)?)?;
        }
        Ok(Supports { sets })
    }

    pub(crate) fn get(&self, state: u32) -> &[u64] {
        match self.sets.get(state as usize) {
            Some(set) => set.as_slice(),
            None => &[],
        }
    }

    /// The number of states in a support.
    pub(crate) fn size(&self, state: u32) -> u32 {
        missing(self.get(state), &[])
    }

    /// How many states of one support another one lacks.
    pub(crate) fn lacking(&self, state: u32, other: u32) -> u32 {
        missing(self.get(state), self.get(other))
    }

    /// About how many looks it takes to compare two supports.
    pub(crate) fn looks(&self) -> usize {
        let mut most = 0usize;
        for set in &self.sets {
            most = most.max(set.len());
        }
        most / 4 + 1
    }
}

fn support_of(alloc: Global, numbers: &Numbers, state: u32) -> Result<Vec<u64>, AllocError> {
    let row = numbers.row(state);
    let mut set = vec![in alloc; 0u64; row.len() / 64 + 1]?;
    for at in 0..row.len() {
        if numbers.get(state, at).is_some() {
            add(&mut set, at);
        }
    }
    Ok(set)
}

/// The set of these numbers.
pub(crate) fn set_of(alloc: Global, numbers: &[u32]) -> Result<Vec<u64>, AllocError> {
    let most = numbers.iter().max().copied().unwrap_or(0);
    let mut set = vec![in alloc; 0u64; most as usize / 64 + 1]?;
    for number in numbers {
        add(&mut set, *number as usize);
    }
    Ok(set)
}
