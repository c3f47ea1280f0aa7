//! Sets of states, 64 in a word. Where the states don't fill the words, the first ones stand there again.

use std::alloc::{AllocError, Global};

/// The set of the states that are marked.
pub(crate) fn set_of(alloc: Global, marks: &[bool]) -> Result<Vec<u64>, AllocError> {
    let mut set = Vec::new(alloc);
    let mut state = 0usize;
    for _ in 0..marks.len().div_ceil(64) {
        let mut word = 0u64;
        for bit in 0..64u32 {
            if marks.get(state).copied().unwrap_or(false) {
                word |= 1u64 << bit;
            }
            state = if state.saturating_add(1) < marks.len() {
                state.saturating_add(1)
            } else {
                0
            };
        }
        set.push(word)?;
    }
    Ok(set)
}

/// The set or its opposite, whichever is without the start.
pub(crate) fn normal_set(set: Vec<u64>) -> Vec<u64> {
    let has_start = has_state(&set, 0);
    let mut set = set;
    if has_start {
        for word in set.iter_mut() {
            *word = !*word;
        }
    }
    set
}

pub(crate) fn has_state(set: &[u64], state: usize) -> bool {
    match set.get(state / 64) {
        Some(word) => (*word >> (state % 64)) & 1 == 1,
        None => false,
    }
}

/// The states in both sets, in one of them, and in just one of them.
pub(crate) fn combinations(
    alloc: Global,
    one: &[u64],
    other: &[u64],
) -> Result<[Vec<u64>; 3], AllocError> {
    let mut both = Vec::with_capacity(alloc, one.len())?;
    let mut either = Vec::with_capacity(alloc, one.len())?;
    let mut just_one = Vec::with_capacity(alloc, one.len())?;
    for (left, right) in one.iter().zip(other) {
        both.push(*left & *right)?;
        either.push(*left | *right)?;
        just_one.push(*left ^ *right)?;
    }
    Ok([both, either, just_one])
}
