//! Predicates of states that are worth a bit of their code: where an output is written, from where one comes to such states, and
//! combinations of two of them.

use crate::state_sets::{combinations, has_state, normal_set, set_of};
use crate::tables::Functions;
use gate_search::Work;
use indexmap::IndexMap;
use std::alloc::{AllocError, Global};

/// There are no more predicates.
const MOST: usize = 3000;

/// So many predicates are led back along the moves.
const MOST_LED_BACK: usize = 1500;

/// So many of the first predicates are combined with each other.
const MOST_COMBINED: usize = 40;

/// How often a predicate is drawn, for each letter of an output, for each letter that leads to it, and as a combination.
const WRITING_WEIGHT: u64 = 50;

const MOVE_WEIGHT: u64 = 10;

const COMBINATION_WEIGHT: u64 = 1;

/// A set of states without the start, and the weights of the sets up to it.
#[derive(Drop)]
pub(crate) struct Predicate {
    pub(crate) states: Vec<u64>,
    pub(crate) weight_below: u64,
}

/// Sets with their weights.
#[derive(Drop)]
struct Weights {
    alloc: Global,
    of: IndexMap<Vec<u64>, u64>,
}

/// The predicates of a machine, and the sum of their weights.
pub(crate) fn predicates(
    alloc: Global,
    functions: &Functions,
    work: &mut Work,
) -> Result<(Vec<Predicate>, u64), AllocError> {
    let mut weights = Weights {
        alloc,
        of: IndexMap::new(alloc),
    };
    for writing in &functions.writings {
        let states = Vec::from_slice(alloc, &writing.states)?;
        weights.put(states, writing.letters.saturating_mul(WRITING_WEIGHT))?;
    }
    weights.lead_back(functions, work)?;
    weights.combine()?;
    let mut predicates = Vec::new(alloc);
    let mut sum = 0u64;
    for (states, weight) in weights.of {
        predicates.push(Predicate {
            states,
            weight_below: sum,
        })?;
        sum = sum.saturating_add(weight);
    }
    Ok((predicates, sum))
}

impl Weights {
    /// Adds to the weight of a set, if it is there or there is room for it.
    fn put(&mut self, states: Vec<u64>, weight: u64) -> Result<(), AllocError> {
        let states = normal_set(states);
        let own = self.of.get(&states).copied();
        if states.iter().all(|word| *word == 0) || own.is_none() && self.of.len() >= MOST {
            return Ok(());
        }
        self.of
            .insert(states, own.unwrap_or(0).saturating_add(weight))?;
        Ok(())
    }

    fn set(&self, place: usize) -> Result<Vec<u64>, AllocError> {
        match self.of.get_index(place) {
            Some((states, _)) => Vec::from_slice(self.alloc, states),
            None => Ok(Vec::new(self.alloc)),
        }
    }

    /// The states from which a move leads into a set, for each move and each of the first sets.
    fn lead_back(&mut self, functions: &Functions, work: &mut Work) -> Result<(), AllocError> {
        for place in 0..MOST_LED_BACK {
            if place >= self.of.len() || work.is_over() {
                break;
            }
            let into = self.set(place)?;
            work.spend(
                functions
                    .states
                    .saturating_mul(functions.moves.len())
                    .saturating_mul(4),
            );
            for step in &functions.moves {
                let from = set_before(self.alloc, &step.next, &into)?;
                self.put(from, step.letters.saturating_mul(MOVE_WEIGHT))?;
            }
        }
        Ok(())
    }

    fn combine(&mut self) -> Result<(), AllocError> {
        for place in 0..self.of.len().min(MOST_COMBINED) {
            let one = self.set(place)?;
            for other in 0..place {
                let other = self.set(other)?;
                for states in combinations(self.alloc, &one, &other)? {
                    self.put(states, COMBINATION_WEIGHT)?;
                }
            }
        }
        Ok(())
    }
}

/// The states whose next one is in a set.
fn set_before(alloc: Global, next: &[u32], into: &[u64]) -> Result<Vec<u64>, AllocError> {
    let mut is_before = Vec::with_capacity(alloc, next.len())?;
    for state in next {
        is_before.push(has_state(into, *state as usize))?;
    }
    set_of(alloc, &is_before)
}
