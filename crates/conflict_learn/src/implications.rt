use crate::clauses::clause_of;
use crate::places::Places;
use propositional_logic::{Clause, Cnf};
use refutation_log::Entry;
use std::alloc::{AllocError, Global};
use unit_propagate::Trail;

/// Some levels, of which those that are the same modulo 64 aren't told apart.
#[derive(Clone, Copy, Debug)]
struct Levels(u64);

impl Levels {
    fn with(self, level: u32) -> Levels {
        Levels(self.0 | 1 << (level % 64))
    }

    fn may_have(self, level: u32) -> bool {
        self.0 >> (level % 64) & 1 == 1
    }
}

/// What is known of a literal of the trail.
#[derive(Clone, Copy, Debug, PartialEq, Eq)]
enum Fate {
    Unknown,
    /// It is implied if those are that its reason wants.
    Wanted,
    /// The literals to come imply it.
    Implied,
    /// When it was looked at, they didn't.
    Left,
}

/// Which literals of a conflict's analysis the others imply. What is learnt is right whatever is answered here.
#[derive(Drop)]
pub struct Implications<'a> {
    base: &'a Cnf,
    seen: &'a [Entry],
    trail: &'a Trail,
    top: u32,

    // What is known of the literal at each place; it stays so for the whole conflict.
    fates: Vec<Fate>,

    // The places of the literals that are wanted, each once.
    wanted: Vec<usize>,

    // Those of the literals that were to come when the first one below the top was looked at.
    levels: Option<Levels>,
}

impl<'a> Implications<'a> {
    /// The implications of the literals below a level, the highest of the falsified clause.
    pub fn new(
        alloc: Global,
        base: &'a Cnf,
        seen: &'a [Entry],
        trail: &'a Trail,
        top: u32,
    ) -> Result<Implications<'a>, AllocError> {
        Ok(Implications {
            base,
            seen,
            trail,
            top,
            fates: vec![in alloc; Fate::Unknown; trail.len()]?,
            wanted: Vec::new(alloc),
            levels: None,
        })
    }

    /// Whether the literals at the places to come imply the one at a place below the top: the other literals of its reason stand at these
    /// places or on level 0, or are implied in turn. Goes through each reason once for each conflict, but for those of literals that are
    /// left, and stops at a level that no literal to come has.
    pub fn imply(&mut self, to_come: &Places, place: usize) -> Result<bool, AllocError> {
        let level = self.level(place);
        if level == 0 || level >= self.top {
            return Ok(false);
        }
        let levels = self.levels(to_come, level);
        if !self.want(levels, place)? {
            return Ok(false);
        }
        let implied = self.are_implied(to_come, levels)?;
        self.settle(place, implied);
        Ok(implied)
    }

    /// The level of the literal at a place; 0 where none stands there.
    fn level(&self, place: usize) -> u32 {
        if place < self.trail.len() {
            self.trail.at(place).1
        } else {
            0
        }
    }

    /// The levels of a place and of those to come, the first time that it is asked.
    fn levels(&mut self, to_come: &Places, level: u32) -> Levels {
        if let Some(levels) = self.levels {
            return levels;
        }
        let mut levels = Levels(0).with(level);
        for place in 0..to_come.end() {
            if to_come.contains(place) {
                levels = levels.with(self.level(place));
            }
        }
        self.levels = Some(levels);
        levels
    }

    /// What is known of the literal at a place.
    fn fate(&self, place: usize) -> Fate {
        self.fates.get(place).copied().unwrap_or(Fate::Left)
    }

    fn set_fate(&mut self, place: usize, fate: Fate) {
        if let Some(slot) = self.fates.get_mut(place) {
            *slot = fate;
        }
    }

    /// Wants the literal at a place to be implied. Answers false where it is known not to be.
    fn want(&mut self, levels: Levels, place: usize) -> Result<bool, AllocError> {
        match self.fate(place) {
            Fate::Wanted | Fate::Implied => Ok(true),
            Fate::Left => Ok(false),
            Fate::Unknown => {
                if !levels.may_have(self.level(place)) {
                    return Ok(false);
                }
                self.wanted.push(place)?;
                self.set_fate(place, Fate::Wanted);
                Ok(true)
            }
        }
    }

    /// Whether the literals that are wanted are implied, with those that their reasons want.
    fn are_implied(&mut self, to_come: &Places, levels: Levels) -> Result<bool, AllocError> {
        // None is wanted twice, so these are no more than the places.
        for step in 0..self.trail.len() {
            let Some(place) = self.wanted.get(step).copied() else {
                return Ok(true);
            };
            if !self.want_others(to_come, levels, place)? {
                self.set_fate(place, Fate::Left);
                return Ok(false);
            }
        }
        Ok(true)
    }

    /// Wants the other literals of the reason of the one at a place, but for those that are to come anyway or stand on level 0. Answers
    /// false where it has no reason, or one of them isn't implied.
    fn want_others(
        &mut self,
        to_come: &Places,
        levels: Levels,
        place: usize,
    ) -> Result<bool, AllocError> {
        let Some(clause) = self.reason(place) else {
            return Ok(false);
        };
        for lit in clause.lits() {
            let Some(other) = self.trail.place(lit.var()) else {
                continue;
            };
            if to_come.contains(other) || self.level(other) == 0 {
                continue;
            }
            if !self.want(levels, other)? {
                return Ok(false);
            }
        }
        Ok(true)
    }

    /// The reason of the literal at a place.
    fn reason(&self, place: usize) -> Option<&'a Clause> {
        if place >= self.trail.len() {
            return None;
        }
        let (_lit, _level, reason) = self.trail.at(place);
        clause_of(self.base, self.seen, reason?)
    }

    /// Ends the look at the literal at a place, which is implied or not.
    fn settle(&mut self, place: usize, implied: bool) {
        let fate = if implied {
            Fate::Implied
        } else {
            Fate::Unknown
        };
        for wanted in &self.wanted {
            settle_one(&mut self.fates, *wanted, fate);
        }
        self.wanted.clear();
        if !implied {
            self.set_fate(place, Fate::Left);
        }
    }
}

/// Takes a literal that was wanted as one of that fate, unless it is left.
fn settle_one(fates: &mut [Fate], place: usize, fate: Fate) {
    if let Some(slot) = fates.get_mut(place) {
        if *slot == Fate::Wanted {
            *slot = fate;
        }
    }
}
