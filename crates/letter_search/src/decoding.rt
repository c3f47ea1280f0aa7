//! What values of variables say of a machine and of its numbers.
use crate::tracks::Tracks;
use letters_and_lassos::Kind;
use machine_model::Row;
use std::alloc::{AllocError, Global};

/// Values that meet the base clauses of a size over some letters.
#[derive(Clone, Copy)]
pub(crate) struct Decoding<'a> {
    pub(crate) values: &'a [bool],
    pub(crate) size: u32,
    /// The number of letters.
    pub(crate) letters: u32,
    /// The number of signals that are written.
    pub(crate) writes: u32,
    pub(crate) kind: Kind,
}

/// The product of two numbers.
fn times(one: u32, other: u32) -> u64 {
    u64::from(one).saturating_mul(u64::from(other))
}

impl Decoding<'_> {
    /// The value of a variable.
    fn value(&self, var: u64) -> bool {
        let place = var.saturating_sub(1) as usize;
        self.values.get(place).copied().unwrap_or(false)
    }

    /// The place of a state's row on the letter at a place.
    fn row_place(&self, state: u32, letter: u32) -> u64 {
        times(state, self.letters).saturating_add(u64::from(letter))
    }

    /// How many variables say where the machine moves.
    fn move_count(&self) -> u64 {
        times(self.size, self.letters).saturating_mul(u64::from(self.size))
    }

    /// How many say what it writes.
    fn write_count(&self) -> u64 {
        let places = match self.kind {
            Kind::Mealy => times(self.size, self.letters),
            Kind::Moore => u64::from(self.size),
        };
        places.saturating_mul(u64::from(self.writes))
    }

    /// What the machine does in a state on the letter at a place.
    pub(crate) fn row(&self, state: u32, letter: u32) -> Row {
        Row {
            next: self.least_move(state, letter),
            writes: self.written(state, letter),
        }
    }

    fn least_move(&self, state: u32, letter: u32) -> u32 {
        let before = self
            .row_place(state, letter)
            .saturating_mul(u64::from(self.size))
            .saturating_add(1);
        for to in 0..self.size {
            if self.value(before.saturating_add(u64::from(to))) {
                return to;
            }
        }
        0
    }

    /// The letter that is written in a state on the letter at a place.
    pub(crate) fn written(&self, state: u32, letter: u32) -> u32 {
        let place = match self.kind {
            Kind::Mealy => self.row_place(state, letter),
            Kind::Moore => u64::from(state),
        };
        let first = place
            .saturating_mul(u64::from(self.writes))
            .saturating_add(self.move_count())
            .saturating_add(1);
        let mut written = 0u32;
        for signal in 0..self.writes.min(32) {
            if self.value(first.saturating_add(u64::from(signal))) {
                written |= 1 << signal;
            }
        }
        written
    }

    /// For each state of the machine and each of the automaton the greatest number that their pair reaches.
    pub(crate) fn numbers(
        &self,
        alloc: Global,
        tracks: &Tracks,
    ) -> Result<Vec<Option<u32>>, AllocError> {
        let mut numbers = Vec::new(alloc);
        let mut first = self
            .move_count()
            .saturating_add(self.write_count())
            .saturating_add(1);
        for _ in 0..self.size {
            for count in &tracks.counts {
                let bound = self.size.saturating_mul(*count);
                numbers.push(self.greatest_from(first, bound))?;
                first = first.saturating_add(u64::from(bound)).saturating_add(1);
            }
        }
        Ok(numbers)
    }

    /// The greatest number up to a bound whose variable is true, that of 0 being the first.
    fn greatest_from(&self, first: u64, bound: u32) -> Option<u32> {
        let mut greatest = None;
        for number in 0..bound.saturating_add(1) {
            if self.value(first.saturating_add(u64::from(number))) {
                greatest = Some(number);
            }
        }
        greatest
    }
}
