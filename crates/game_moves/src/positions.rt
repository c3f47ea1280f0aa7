//! Positions: for each state of the automaton no number or a number of marks, kept once each.

use game_arena::Stop;
use indexmap::IndexSet;
use std::alloc::{AllocError, Global};

/// Positions by their number. In a position the byte of a state is 0 where no run is in it, else one more than the greatest number of
/// marks that a run to it met.
#[derive(Drop)]
pub struct Positions {
    rows: IndexSet<Vec<u8>>,
    seals: Vec<Seal>,
    /// How many positions and bytes there is room for still.
    room: usize,
    bytes_left: usize,
    alloc: Global,
}

/// About what is kept beside the bytes of a position.
const POSITION_BYTES: usize = 64;

/// What tells early that one position isn't at most another: which states it has, 64 to a bit, and the sum of its bytes.
#[derive(Clone, Copy)]
struct Seal {
    states: u64,
    sum: u64,
}

impl Positions {
    /// No positions, but room for so many, and for so many bytes.
    pub fn new(alloc: Global, room: usize, bytes: usize) -> Positions {
        Positions {
            rows: IndexSet::new(alloc),
            seals: Vec::new(alloc),
            room,
            bytes_left: bytes,
            alloc,
        }
    }

    /// Takes so many bytes of the room, or says that there are no more.
    pub fn take_bytes(&mut self, bytes: usize) -> Result<(), Stop> {
        match self.bytes_left.checked_sub(bytes) {
            Some(left) => self.bytes_left = left,
            None => return Err(Stop::Bytes),
        }
        Ok(())
    }

    /// The number of positions.
    pub fn count(&self) -> usize {
        self.seals.len()
    }

    /// The number of a position, which is new or was met before.
    pub fn number_of(&mut self, bytes: &[u8]) -> Result<u32, Stop> {
        if let Some(number) = self.rows.get_index_of(bytes) {
            return Ok(u32::try_from(number).unwrap_or(u32::MAX));
        }
        let number = self.seals.len();
        if number >= self.room {
            return Err(Stop::Positions);
        }
        self.take_bytes(bytes.len().saturating_add(POSITION_BYTES))?;
        self.rows.insert(bytes.to_vec(self.alloc)?)?;
        self.seals.push(seal_of(bytes))?;
        Ok(u32::try_from(number).unwrap_or(u32::MAX))
    }

    /// The bytes of a position.
    pub fn bytes(&self, position: u32) -> &[u8] {
        match self.rows.get_index(position as usize) {
            Some(bytes) => bytes,
            None => &[],
        }
    }

    /// A copy of the bytes of a position.
    pub fn copy(&self, position: u32) -> Result<Vec<u8>, AllocError> {
        self.bytes(position).to_vec(self.alloc)
    }

    /// The sum of a position's bytes.
    pub(crate) fn sum(&self, position: u32) -> u64 {
        match self.seals.get(position as usize) {
            Some(seal) => seal.sum,
            None => 0,
        }
    }

    /// Whether a position has in no state more than another.
    pub fn is_at_most(&self, one: u32, other: u32) -> bool {
        if one == other {
            return true;
        }
        let (Some(lesser), Some(greater)) = (
            self.seals.get(one as usize),
            self.seals.get(other as usize),
        ) else {
            return false;
        };
        lesser.states & !greater.states == 0
            && lesser.sum <= greater.sum
            && are_at_most(self.bytes(one), self.bytes(other))
    }
}

/// Whether no byte is greater than the other at its place.
pub(crate) fn are_at_most(lesser: &[u8], greater: &[u8]) -> bool {
    for (one, other) in lesser.iter().zip(greater) {
        if *one > *other {
            return false;
        }
    }
    true
}

/// Each state that is there counts eight times, so that of two positions with equal numbers the one with fewer states is less.
fn seal_of(bytes: &[u8]) -> Seal {
    let mut seal = Seal { states: 0, sum: 0 };
    for (state, byte) in bytes.iter().enumerate() {
        if *byte > 0 {
            seal.states |= 1 << (state % 64);
            seal.sum = seal.sum.saturating_add(u64::from(*byte)).saturating_add(7);
        }
    }
    seal
}
