//! What a code may cost: the gates of a net over its bits alone, for all that the outputs and the next bits are on some letter, and choices
//! between them.

use crate::state_sets::{normal_set, set_of};
use crate::tables::Functions;
use gate_search::{Work, decomposed_net};
use indexmap::IndexSet;
use signal_nets::Problem;
use std::alloc::{AllocError, Global};

/// A code of which more functions are asked isn't looked at more closely.
const MOST_FUNCTIONS: usize = 400;

/// More than any code costs that is looked at closely.
const UNSEEN: u64 = 1_000_000;

/// The steps for one net.
const STEPS: u64 = 20_000_000;

pub(crate) fn cost(
    alloc: Global,
    functions: &Functions,
    code: &[u32],
    bits: u32,
    work: &mut Work,
) -> Result<u64, AllocError> {
    let mut targets: IndexSet<Vec<u64>> = IndexSet::new(alloc);
    for writing in &functions.writings {
        targets.insert(Vec::from_slice(alloc, &writing.states)?)?;
    }
    let mut choices = functions.choices;
    for bit in 0..bits {
        choices = choices.saturating_add(put_next_bits(alloc, functions, code, bit, &mut targets)?);
    }
    let looks = functions.states.saturating_mul(functions.moves.len());
    work.spend(looks.saturating_mul(bits as usize).saturating_mul(4));
    if targets.len() > MOST_FUNCTIONS {
        return Ok(UNSEEN.saturating_add(targets.len() as u64));
    }
    let gates = gates_of(alloc, functions.states, code, bits, targets, work)?;
    Ok(gates.saturating_add(choices.saturating_mul(2)))
}

/// Adds what a next bit is on each letter. How many choices it takes between these.
fn put_next_bits(
    alloc: Global,
    functions: &Functions,
    code: &[u32],
    bit: u32,
    targets: &mut IndexSet<Vec<u64>>,
) -> Result<u64, AllocError> {
    let mut own: IndexSet<Vec<u64>> = IndexSet::new(alloc);
    for step in &functions.moves {
        let mut is_set = Vec::with_capacity(alloc, step.next.len())?;
        for state in &step.next {
            is_set.push(has_bit(code, *state as usize, bit))?;
        }
        let states = normal_set(set_of(alloc, &is_set)?);
        own.insert(Vec::from_slice(alloc, &states)?)?;
        targets.insert(states)?;
    }
    Ok(own.len().saturating_sub(1) as u64)
}

/// The gates of a net over the code's bits.
fn gates_of(
    alloc: Global,
    states: usize,
    code: &[u32],
    bits: u32,
    targets: IndexSet<Vec<u64>>,
    work: &mut Work,
) -> Result<u64, AllocError> {
    let mut leaves = Vec::new(alloc);
    for bit in 0..bits {
        let mut is_set = Vec::with_capacity(alloc, states)?;
        for state in 0..states {
            is_set.push(has_bit(code, state, bit))?;
        }
        leaves.push(set_of(alloc, &is_set)?)?;
    }
    let mut all = Vec::new(alloc);
    for states in targets {
        all.push(states)?;
    }
    let problem = Problem {
        width: states.div_ceil(64),
        leaves,
        inputs: 0,
        outputs: all.len(),
        targets: all,
        is_moore: false,
    };
    let mut own = Work::new(STEPS.min(work.left()), 1);
    let net = decomposed_net(alloc, &problem, &mut own)?;
    work.spend(usize::try_from(STEPS.saturating_sub(own.left())).unwrap_or(0));
    match net {
        Some(net) => Ok(net.gates() as u64),
        None => Ok(UNSEEN),
    }
}

/// A bit of a state's code.
pub(crate) fn has_bit(code: &[u32], state: usize, bit: u32) -> bool {
    let own = code.get(state).copied().unwrap_or(0);
    own.checked_shr(bit).unwrap_or(0) & 1 == 1
}
