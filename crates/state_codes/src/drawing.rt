//! Codes that are drawn bit by bit, and the choice among codes.

use crate::costs::cost;
use crate::predicates::{Predicate, predicates};
use crate::state_sets::has_state;
use crate::tables::{Functions, Table};
use gate_search::Work;
use std::alloc::{AllocError, Global};

/// So many codes are drawn.
const DRAWS: usize = 200;

/// For each bit so many predicates are drawn before all are looked through.
const TRIES: usize = 32;

/// So many of the cheapest codes are given, beside the one in the order of the states.
const MOST_CODES: usize = 3;

/// Machines with more states have the code in the order of the states alone.
const MOST_STATES: usize = 4096;

/// A code of each state and what it may cost.
#[derive(Drop)]
struct Candidate {
    cost: u64,
    code: Vec<u32>,
}

/// Draws codes of so many bits.
#[derive(Drop)]
struct Drawer {
    alloc: Global,
    states: usize,
    bits: u32,
    predicates: Vec<Predicate>,
    weight: u64,
}

/// The least number of bits of the codes of so many states.
pub fn code_bits(states: usize) -> u32 {
    usize::BITS.saturating_sub(states.saturating_sub(1).leading_zeros())
}

/// Codes of `code_bits` bits for a machine, the start as 0: first by the order of its states, then those that may cost least. The known code
/// is one of these that are looked at, where it has no more bits.
pub fn likely_codes(
    alloc: Global,
    table: &Table,
    known: &[u32],
    work: &mut Work,
) -> Result<Vec<Vec<u32>>, AllocError> {
    let bits = code_bits(table.states);
    let ordered = ordered_code(alloc, table.states)?;
    let mut codes = Vec::new(alloc);
    if table.states > 2 && table.states <= MOST_STATES {
        let functions = table.functions(alloc)?;
        let mut candidates = Vec::new(alloc);
        for code in [gray_code(alloc, &ordered)?, Vec::from_slice(alloc, known)?] {
            if code
                .iter()
                .all(|own| own.checked_shr(bits).unwrap_or(0) == 0)
            {
                let cost = cost(alloc, &functions, &code, bits, work)?;
                candidates.push(Candidate { cost, code })?;
            }
        }
        push_drawn(alloc, &functions, bits, &mut candidates, work)?;
        candidates.sort_by_cached_key(|candidate| candidate.cost)?;
        push_cheapest(&mut codes, candidates, &ordered)?;
    }
    codes.insert(0, ordered)?;
    Ok(codes)
}

/// The number of each state.
fn ordered_code(alloc: Global, states: usize) -> Result<Vec<u32>, AllocError> {
    let mut code = Vec::new(alloc);
    for state in 0..states {
        code.push(u32::try_from(state).unwrap_or(u32::MAX))?;
    }
    Ok(code)
}

/// The code in which numbers that follow each other differ in one bit.
fn gray_code(alloc: Global, ordered: &[u32]) -> Result<Vec<u32>, AllocError> {
    let mut code = Vec::new(alloc);
    for number in ordered {
        code.push(*number ^ (*number >> 1))?;
    }
    Ok(code)
}

/// Appends the first of these codes that are different from each other and from one.
fn push_cheapest(
    codes: &mut Vec<Vec<u32>>,
    candidates: Vec<Candidate>,
    other: &[u32],
) -> Result<(), AllocError> {
    for candidate in candidates {
        let is_new = candidate.code.as_slice() != other && !codes.contains(&candidate.code);
        if is_new && codes.len() < MOST_CODES {
            codes.push(candidate.code)?;
        }
    }
    Ok(())
}

fn push_drawn(
    alloc: Global,
    functions: &Functions,
    bits: u32,
    candidates: &mut Vec<Candidate>,
    work: &mut Work,
) -> Result<(), AllocError> {
    let (predicates, weight) = predicates(alloc, functions, work)?;
    let drawer = Drawer {
        alloc,
        states: functions.states,
        bits,
        predicates,
        weight,
    };
    for _ in 0..DRAWS {
        if work.is_over() {
            break;
        }
        let code = drawer.code(work)?;
        let cost = cost(alloc, functions, &code, bits, work)?;
        candidates.push(Candidate { cost, code })?;
    }
    Ok(())
}

impl Drawer {
    /// A code in which the states differ. Each bit halves all classes of states that are alike so far, at least so that the bits left can
    /// tell them apart.
    fn code(&self, work: &mut Work) -> Result<Vec<u32>, AllocError> {
        let alloc = self.alloc;
        let mut code = vec![in alloc; 0u32; self.states]?;
        for bit in 0..self.bits.min(31) {
            let room = room_behind(self.bits, bit);
            let mut is_set = Vec::with_capacity(alloc, self.states)?;
            match self.fitting(&code, bit, room, work)? {
                Some(predicate) => {
                    for state in 0..self.states {
                        is_set.push(has_state(&predicate.states, state))?;
                    }
                }
                None => self.push_halves(&mut is_set, &code, bit)?,
            }
            for (own, is_set) in code.iter_mut().zip(&is_set) {
                *own |= u32::from(*is_set) << bit;
            }
        }
        Ok(code)
    }

    /// A predicate that leaves classes of at most `room` states, and splits one.
    fn fitting(
        &self,
        code: &[u32],
        bit: u32,
        room: u32,
        work: &mut Work,
    ) -> Result<Option<&Predicate>, AllocError> {
        for _ in 0..TRIES {
            let Some(predicate) = self.drawn(work) else {
                return Ok(None);
            };
            if self.fits(code, bit, room, predicate, work)? {
                return Ok(Some(predicate));
            }
        }
        for predicate in &self.predicates {
            if work.is_over() {
                break;
            }
            if self.fits(code, bit, room, predicate, work)? {
                return Ok(Some(predicate));
            }
        }
        Ok(None)
    }

    /// A predicate by the weights.
    fn drawn(&self, work: &mut Work) -> Option<&Predicate> {
        let weight = u64::from(work.draw(u32::try_from(self.weight).unwrap_or(u32::MAX)));
        let behind = self
            .predicates
            .partition_point(|predicate| predicate.weight_below <= weight);
        self.predicates.get(behind.saturating_sub(1))
    }

    fn fits(
        &self,
        code: &[u32],
        bit: u32,
        room: u32,
        predicate: &Predicate,
        work: &mut Work,
    ) -> Result<bool, AllocError> {
        work.spend(self.states.saturating_mul(4));
        let mut sizes = self.no_sizes(bit)?;
        for (state, class) in code.iter().enumerate() {
            if let Some(size) = sizes.get_mut(*class as usize) {
                size.count(has_state(&predicate.states, state));
            }
        }
        let splits = sizes.iter().any(|size| size.set > 0 && size.unset > 0);
        Ok(
            splits
                && sizes
                    .iter()
                    .all(|size| size.set <= room && size.unset <= room),
        )
    }

    /// Marks the later half of each class.
    fn push_halves(
        &self,
        is_set: &mut Vec<bool>,
        code: &[u32],
        bit: u32,
    ) -> Result<(), AllocError> {
        let mut sizes = self.no_sizes(bit)?;
        for class in code {
            if let Some(size) = sizes.get_mut(*class as usize) {
                size.count(false);
            }
        }
        for class in code {
            match sizes.get_mut(*class as usize) {
                Some(size) => {
                    let is_later = size.set >= size.unset.div_ceil(2);
                    size.set = size.set.saturating_add(1);
                    is_set.push(is_later)?;
                }
                None => is_set.push(false)?,
            }
        }
        Ok(())
    }

    /// A size for each class of so many bits.
    fn no_sizes(&self, bits: u32) -> Result<Vec<Size>, AllocError> {
        let alloc = self.alloc;
        let classes = 1usize.checked_shl(bits).unwrap_or(0);
        Ok(vec![in alloc; Size { set: 0, unset: 0 }; classes]?)
    }
}

/// How many states of a class are marked, and how many aren't.
#[derive(Clone, Copy)]
struct Size {
    set: u32,
    unset: u32,
}

impl Size {
    fn count(&mut self, is_set: bool) {
        if is_set {
            self.set = self.set.saturating_add(1);
        } else {
            self.unset = self.unset.saturating_add(1);
        }
    }
}

/// How many states the bits behind this one tell apart.
fn room_behind(bits: u32, bit: u32) -> u32 {
    let behind = bits.saturating_sub(bit).saturating_sub(1);
    1u32.checked_shl(behind).unwrap_or(u32::MAX)
}
