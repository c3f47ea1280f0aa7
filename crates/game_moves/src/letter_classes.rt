//! Which letters are in which class, when a machine is made of answers.

use crate::expansions::{Candidate, Game};
use crate::positions::are_at_most;
use crate::read_splits::{Branch, effects_of, place_above, reached_by, read_classes};
use game_arena::{Literals, Stop};

/// Letters that are read, and the class that they are in: the place of a class of a Mealy machine's position, or of a successor of what
/// a Moore machine writes.
#[derive(Clone, Copy)]
pub struct Reading {
    pub when: Literals,
    pub class: u32,
}

/// So many conditions on letters are told of one position at most.
const MOST_READINGS: usize = 200_000;

impl Game<'_> {
    /// The letters that a Mealy machine reads in a position, by the classes of `expand`.
    pub fn readings(&mut self, position: u32) -> Result<Vec<Reading>, Stop> {
        let moves = self.moves(position)?;
        let classes = read_classes(self.alloc, &moves.items, &moves.names, &mut self.meter)?;
        let mut readings = Vec::new(self.alloc);
        let mut branches = vec![in self.alloc; Branch::whole(self.alloc, &moves.items)?]?;
        for _ in 0..u64::MAX {
            let Some(branch) = branches.pop() else {
                break;
            };
            self.meter
                .take(branch.possible.len().saturating_add(classes.len()))?;
            let effects = effects_of(self.alloc, &branch.possible, &moves.names)?;
            let Some(place) = place_above(&classes, &effects) else {
                let _leaf = branch.split_read(self.alloc, &moves.items, &mut branches)?;
                continue;
            };
            push_reading(&mut readings, branch.known, place)?;
        }
        Ok(readings)
    }

    /// The letters that a Moore machine reads in a position once it wrote, by the successors of what it wrote.
    pub fn readings_after(
        &mut self,
        position: u32,
        candidate: &Candidate,
    ) -> Result<Vec<Reading>, Stop> {
        let moves = self.moves(position)?;
        let mut readings = Vec::new(self.alloc);
        let whole = Branch::written(self.alloc, &moves.items, candidate.writes)?;
        let mut branches = vec![in self.alloc; whole]?;
        for _ in 0..u64::MAX {
            let Some(branch) = branches.pop() else {
                break;
            };
            self.meter.take(
                branch
                    .possible
                    .len()
                    .saturating_add(candidate.successors.len()),
            )?;
            let states = self.arena.states();
            let reached = reached_by(self.alloc, &moves.items, &branch.possible, states)?;
            let Some(place) = self.place_of(&candidate.successors, &reached) else {
                let _leaf = branch.split_read(self.alloc, &moves.items, &mut branches)?;
                continue;
            };
            push_reading(&mut readings, branch.known, place)?;
        }
        Ok(readings)
    }

    /// The place of the first position that has at least these bytes.
    fn place_of(&self, positions: &[u32], bytes: &[u8]) -> Option<usize> {
        for (place, position) in positions.iter().enumerate() {
            if are_at_most(bytes, self.positions.bytes(*position)) {
                return Some(place);
            }
        }
        None
    }
}

fn push_reading(readings: &mut Vec<Reading>, when: Literals, place: usize) -> Result<(), Stop> {
    if readings.len() >= MOST_READINGS {
        return Err(Stop::Bytes);
    }
    readings.push(Reading {
        when,
        class: u32::try_from(place).unwrap_or(u32::MAX),
    })?;
    Ok(())
}
