//! The moves of a position: classes of letters, and the answers to each.

use crate::items::{Item, items_of};
use crate::positions::Positions;
use crate::read_splits::{Branch, ReadClass, greatest_reached, read_classes};
use crate::write_splits::{least_answers, write_classes};
use game_arena::tables::{at, is_in, mark};
use game_arena::{Arena, Literals, Meter, Stop};
use indexmap::IndexSet;
use letters_and_lassos::Kind;
use std::alloc::{AllocError, Global};

/// An answer: what is written, and the positions of which one comes next.
#[derive(Drop)]
pub struct Candidate {
    pub writes: u64,
    pub successors: Vec<u32>,
}

/// A class of letters that are read, by its place among the classes as they were found, and what may be answered.
#[derive(Drop)]
pub struct Class {
    pub place: u32,
    pub candidates: Vec<Candidate>,
}

/// A game with a bound on the numbers of its positions.
#[derive(Drop)]
pub struct Game<'a> {
    pub arena: &'a Arena,
    pub positions: Positions,
    pub meter: Meter,
    /// The greatest byte of a position: one more than the greatest number of marks.
    pub most: u8,
    /// Whether some answers were left out, so that a position that loses may not.
    pub is_cut: bool,
    /// What `items_of` works on.
    places: Vec<u32>,
    pub alloc: Global,
}

/// The items of a position, each with the name of what it does once the player's first half of the letter is known.
#[derive(Drop)]
pub(crate) struct Moves {
    pub(crate) items: Vec<Item>,
    pub(crate) names: Vec<u32>,
}

/// About what is kept beside the successors of a candidate.
const CANDIDATE_BYTES: usize = 40;

impl<'a> Game<'a> {
    /// A game whose positions have bytes of at most `most`, with room for these positions and the meter's steps.
    pub fn new(
        alloc: Global,
        arena: &'a Arena,
        positions: Positions,
        most: u8,
        meter: Meter,
    ) -> Result<Game<'a>, AllocError> {
        Ok(Game {
            arena,
            positions,
            meter,
            most,
            is_cut: false,
            places: vec![in alloc; 0; arena.names]?,
            alloc,
        })
    }

    /// The position of the automaton's start, with no mark met.
    pub fn start(&mut self) -> Result<u32, Stop> {
        let mut bytes = vec![in self.alloc; 0u8; self.arena.states()]?;
        if let Some(byte) = bytes.get_mut(self.arena.start as usize) {
            *byte = 1;
        }
        self.positions.number_of(&bytes)
    }

    pub(crate) fn moves(&mut self, position: u32) -> Result<Moves, Stop> {
        let items = items_of(
            self.alloc,
            self.arena,
            &mut self.places,
            self.positions.bytes(position),
            self.most,
            &mut self.meter,
        )?;
        let names = names_of(self.alloc, &items, self.arena.player.kind)?;
        Ok(Moves { items, names })
    }

    /// The classes of a position, those with fewest answers first, each with the least answers first.
    pub fn expand(&mut self, position: u32) -> Result<Vec<Class>, Stop> {
        let moves = self.moves(position)?;
        let mut classes = match self.arena.player.kind {
            Kind::Mealy => self.answered_classes(&moves)?,
            Kind::Moore => vec![in self.alloc; self.written_class(&moves)?]?,
        };
        for class in classes.iter_mut() {
            self.sort_candidates(class)?;
        }
        classes.sort_by_key(|class| class.candidates.len())?;
        Ok(classes)
    }

    /// The classes of letters that a Mealy machine reads, with its answers.
    fn answered_classes(&mut self, moves: &Moves) -> Result<Vec<Class>, Stop> {
        let mut classes = Vec::new(self.alloc);
        let read = read_classes(self.alloc, &moves.items, &moves.names, &mut self.meter)?;
        for (place, class) in (0u32..u32::MAX).zip(&read) {
            classes.push(self.answered_class(moves, class, place)?)?;
        }
        Ok(classes)
    }

    fn answered_class(
        &mut self,
        moves: &Moves,
        class: &ReadClass,
        place: u32,
    ) -> Result<Class, Stop> {
        let items = distinct(self.alloc, moves, class)?;
        let answers = least_answers(
            self.alloc,
            items,
            self.arena.states(),
            &mut self.meter,
            &mut self.is_cut,
        )?;
        let mut candidates = Vec::new(self.alloc);
        for answer in &answers {
            let successor = self.positions.number_of(&answer.reached)?;
            self.positions.take_bytes(CANDIDATE_BYTES)?;
            candidates.push(Candidate {
                writes: answer.writes,
                successors: vec![in self.alloc; successor]?,
            })?;
        }
        Ok(Class { place, candidates })
    }

    /// The one class of a Moore machine, with what it may write.
    fn written_class(&mut self, moves: &Moves) -> Result<Class, Stop> {
        let mut candidates = Vec::new(self.alloc);
        let written = write_classes(
            self.alloc,
            &moves.items,
            &moves.names,
            &mut self.meter,
            &mut self.is_cut,
        )?;
        for class in written {
            let whole = Branch {
                known: Literals::ANY,
                possible: class.possible,
            };
            candidates.push(Candidate {
                writes: class.writes,
                successors: self.successors(moves, whole)?,
            })?;
        }
        Ok(Class {
            place: 0,
            candidates,
        })
    }

    /// The greatest positions that come next where these items are possible.
    fn successors(&mut self, moves: &Moves, whole: Branch) -> Result<Vec<u32>, Stop> {
        let reached = greatest_reached(
            self.alloc,
            &moves.items,
            whole,
            self.arena.states(),
            &mut self.meter,
        )?;
        let mut successors = Vec::new(self.alloc);
        for bytes in &reached {
            successors.push(self.positions.number_of(bytes)?)?;
        }
        self.positions.take_bytes(
            successors
                .len()
                .saturating_mul(4)
                .saturating_add(CANDIDATE_BYTES),
        )?;
        Ok(successors)
    }

    /// Sorts the answers by the greatest sum of a position that comes next.
    fn sort_candidates(&self, class: &mut Class) -> Result<(), AllocError> {
        let positions = &self.positions;
        class
            .candidates
            .sort_by_cached_key(|candidate| size_of_answer(positions, candidate))
    }
}

/// For each item the name of what it does once the first half of the letter is known.
fn names_of(alloc: Global, items: &[Item], kind: Kind) -> Result<Vec<u32>, AllocError> {
    let mut met: IndexSet<(u64, u64, Option<u32>, u8)> = IndexSet::new(alloc);
    let mut names = Vec::with_capacity(alloc, items.len())?;
    for item in items {
        let later = match kind {
            Kind::Mealy => item.write,
            Kind::Moore => item.read,
        };
        let (name, _) = met.insert_full((later.on, later.off, item.to, item.number))?;
        names.push(u32::try_from(name).unwrap_or(u32::MAX))?;
    }
    Ok(names)
}

/// The greatest sum of a position that comes next, and how many may.
fn size_of_answer(positions: &Positions, candidate: &Candidate) -> (u64, usize) {
    let mut greatest = 0;
    for next in &candidate.successors {
        greatest = positions.sum(*next).max(greatest);
    }
    (greatest, candidate.successors.len())
}

/// The items of a class, one of each name.
fn distinct(alloc: Global, moves: &Moves, class: &ReadClass) -> Result<Vec<Item>, AllocError> {
    let mut met = vec![in alloc; false; moves.names.len()]?;
    let mut items = Vec::new(alloc);
    for place in &class.possible {
        let name = at(&moves.names, *place);
        if let Some(item) = moves.items.get(*place as usize)
            && !is_in(&met, name)
        {
            mark(&mut met, name);
            items.push(*item)?;
        }
    }
    Ok(items)
}
