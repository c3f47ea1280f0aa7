//! A machine over all letters, of one over some.
use crate::blocks::{Block, Places, Steps, blocked_at, least_free};
use crate::decoding::Decoding;
use crate::letters::letter_count;
use crate::tracks::{Track, Tracks};
use letters_and_lassos::Kind;
use machine_model::Row;
use std::alloc::{AllocError, Global};
use std::cmp::Reverse;

/// The most rows of a table.
const MOST_ROWS: u64 = 1_048_576;

/// The most steps of finding what is written.
const MOST_STEPS: u64 = 1 << 28;

/// What comes of filling a machine.
#[derive(Drop)]
pub(crate) enum Filled {
    /// Its rows, for each state those of all letters.
    Whole(Vec<Row>),
    /// The letters at which states have no row, those first where most have none.
    Gaps(Vec<u32>),
    /// It takes too long, or has too many rows.
    TooLong,
}

/// A machine over some letters, with what is needed to fill it.
#[derive(Clone, Copy)]
pub(crate) struct Filling<'a> {
    pub(crate) alloc: Global,
    pub(crate) decoding: Decoding<'a>,
    /// The letters by rising number.
    pub(crate) letters: &'a [u32],
    pub(crate) tracks: &'a Tracks,
    pub(crate) places: Places,
}

/// What is filled in.
#[derive(Drop)]
struct Table {
    rows: Vec<Row>,
    /// For each letter the number of states that have no row there.
    gaps: Vec<u32>,
}

impl Filling<'_> {
    /// Gives each state on each other letter the least move, and then the least letter to write, that the numbers allow.
    pub(crate) fn filled(&self) -> Result<Filled, AllocError> {
        let all = letter_count(self.places.reads.count);
        let rows = u64::from(all).saturating_mul(u64::from(self.decoding.size));
        if rows > MOST_ROWS {
            return Ok(Filled::TooLong);
        }
        let numbers = self.decoding.numbers(self.alloc, self.tracks)?;
        let mut table = Table {
            rows: Vec::new(self.alloc),
            gaps: vec![in self.alloc; 0u32; all as usize]?,
        };
        let mut steps = Steps { left: MOST_STEPS };
        for state in 0..self.decoding.size {
            self.fill_state(state, &numbers, &mut table, &mut steps)?;
            if steps.left == 0 {
                return Ok(Filled::TooLong);
            }
        }
        table.into_filled(self.alloc)
    }

    fn fill_state(
        &self,
        state: u32,
        numbers: &[Option<u32>],
        table: &mut Table,
        steps: &mut Steps,
    ) -> Result<(), AllocError> {
        let blocks = self.blocks_of(state, numbers)?;
        let all = letter_count(self.places.reads.count);
        for letter in 0..all {
            match self.row_at(state, letter, &blocks, steps)? {
                Some(row) => table.rows.push(row)?,
                None => table.leave(letter),
            }
            if steps.left == 0 {
                return Ok(());
            }
        }
        Ok(())
    }

    /// What the state does on a letter, if the numbers allow anything.
    fn row_at(
        &self,
        state: u32,
        letter: u32,
        blocks: &[Vec<Block>],
        steps: &mut Steps,
    ) -> Result<Option<Row>, AllocError> {
        if let Ok(place) = self.letters.binary_search(&letter) {
            let place = u32::try_from(place).unwrap_or(0);
            return Ok(Some(self.decoding.row(state, place)));
        }
        let (least, last) = self.written_in(state);
        for (next, blocks) in (0u32..u32::MAX).zip(blocks) {
            steps.take(blocks.len());
            let blocked = blocked_at(self.alloc, blocks, letter)?;
            if let Some(writes) = least_free(&blocked, least, last, steps) {
                return Ok(Some(Row { next, writes }));
            }
        }
        Ok(None)
    }

    /// The first and the last letter that a state may write.
    fn written_in(&self, state: u32) -> (u32, u32) {
        match self.decoding.kind {
            Kind::Mealy => (0, self.places.writes.whole()),
            Kind::Moore => {
                let written = self.decoding.written(state, 0);
                (written, written)
            }
        }
    }

    /// For each next state the letters that the numbers forbid.
    fn blocks_of(
        &self,
        state: u32,
        numbers: &[Option<u32>],
    ) -> Result<Vec<Vec<Block>>, AllocError> {
        let mut blocks = Vec::new(self.alloc);
        for next in 0..self.decoding.size {
            let mut own = Vec::new(self.alloc);
            for track in &self.tracks.edges {
                if self.forbids(track, state, next, numbers) {
                    own.push(self.places.block(track.cube))?;
                }
            }
            blocks.push(own)?;
        }
        Ok(blocks)
    }

    /// Whether an edge forbids its letters on a move between these states.
    fn forbids(&self, track: &Track, state: u32, next: u32, numbers: &[Option<u32>]) -> bool {
        let Some(number) = self.number(numbers, state, track.from) else {
            return false;
        };
        match self.number(numbers, next, track.to) {
            Some(there) => there < track.number_after(number),
            None => true,
        }
    }

    fn number(&self, numbers: &[Option<u32>], state: u32, q: u32) -> Option<u32> {
        let first = (state as usize).saturating_mul(self.tracks.states());
        let place = first.saturating_add(q as usize);
        numbers.get(place).copied().flatten()
    }
}

impl Table {
    /// Notes that a state has no row on a letter.
    fn leave(&mut self, letter: u32) {
        if let Some(count) = self.gaps.get_mut(letter as usize) {
            *count = count.saturating_add(1);
        }
    }

    fn into_filled(self, alloc: Global) -> Result<Filled, AllocError> {
        let mut missed = Vec::new(alloc);
        for (letter, count) in (0u32..u32::MAX).zip(&self.gaps) {
            if *count > 0 {
                missed.push((Reverse(*count), letter))?;
            }
        }
        if missed.is_empty() {
            return Ok(Filled::Whole(self.rows));
        }
        missed.sort_unstable();
        let mut letters = Vec::new(alloc);
        for (_, letter) in missed {
            letters.push(letter)?;
        }
        Ok(Filled::Gaps(letters))
    }
}
