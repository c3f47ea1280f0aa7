//! The innermost fixpoint: the states that the system keeps away from an assumption's mark, or that reach what it aims at.

use conjunct_monitors::{Meter, Stop};
use letters_and_lassos::Kind;
use reactivity_arena::{Arena, Fate, Link};
use std::alloc::{AllocError, Global};

/// What the system aims at: to meet a goal within states that it keeps, or to come to states that it aims from already; and meanwhile an
/// assumption isn't met.
#[derive(Clone, Copy)]
pub(crate) struct Aim<'a> {
    pub(crate) kept: &'a [bool],
    pub(crate) aimed: &'a [bool],
    pub(crate) goal: u64,
    pub(crate) assumption: Option<u64>,
}

/// The greatest set of states in which each step is good, with the round in which the others fell.
#[derive(Drop)]
pub(crate) struct Trap {
    kind: Kind,
    /// Whether each state stands.
    pub(crate) stands: Vec<bool>,
    /// The rounds in which states fell; 0 where a state didn't.
    pub(crate) rounds: Vec<u32>,
    good: Vec<bool>,
    /// For each class, where the system answers, its good fates, else 1 where all are good.
    open: Vec<u32>,
    /// For each state, where the system answers, 1 where no class is lost, else the classes that aren't.
    held: Vec<u32>,
    fallen: Vec<u32>,
}

fn is_in(marks: &[bool], place: u32) -> bool {
    marks.get(place as usize).copied().unwrap_or(false)
}

fn unmark(marks: &mut [bool], place: usize) {
    if let Some(own) = marks.get_mut(place) {
        *own = false;
    }
}

fn put(numbers: &mut [u32], place: usize, number: u32) {
    if let Some(own) = numbers.get_mut(place) {
        *own = number;
    }
}

impl Trap {
    pub(crate) fn new(alloc: Global, arena: &Arena, kind: Kind) -> Result<Trap, AllocError> {
        let states = arena.states();
        Ok(Trap {
            kind,
            stands: vec![in alloc; false; states]?,
            rounds: vec![in alloc; 0; states]?,
            good: vec![in alloc; false; arena.fates.len()]?,
            open: vec![in alloc; 0; arena.classes.len()]?,
            held: vec![in alloc; 0; states]?,
            fallen: Vec::with_capacity(alloc, states)?,
        })
    }

    /// Finds the states for an aim.
    pub(crate) fn find(
        &mut self,
        arena: &Arena,
        aim: Aim<'_>,
        meter: &mut Meter,
    ) -> Result<(), Stop> {
        let links = arena.class_fates.size();
        let looks = links.saturating_add(arena.state_classes.size());
        meter.take_steps(looks.saturating_add(arena.fates.len()))?;
        self.fallen.clear();
        self.begin(aim);
        self.judge_fates(arena, aim);
        self.judge_classes(arena);
        self.judge_states(arena, aim)?;
        for place in 0..usize::MAX {
            let Some(state) = self.fallen.get(place).copied() else {
                break;
            };
            self.fall(arena, aim, state, meter)?;
        }
        Ok(())
    }

    fn begin(&mut self, aim: Aim<'_>) {
        for (own, kept) in self.stands.iter_mut().zip(aim.kept) {
            *own = *kept;
        }
        for round in self.rounds.iter_mut() {
            *round = 0;
        }
    }

    fn judge_fates(&mut self, arena: &Arena, aim: Aim<'_>) {
        for (own, fate) in self.good.iter_mut().zip(&arena.fates) {
            *own = aim.is_good(*fate);
        }
    }

    fn judge_classes(&mut self, arena: &Arena) {
        for class in 0..arena.class_fates.count() {
            let open = self.open_of(arena.class_fates.of(class));
            put(&mut self.open, class, open);
        }
    }

    fn open_of(&self, fates: &[Link]) -> u32 {
        let mut good = 0u32;
        for link in fates {
            if is_in(&self.good, link.target) {
                good = good.saturating_add(1);
            }
        }
        match self.kind {
            Kind::Mealy => good,
            Kind::Moore => u32::from(good as usize == fates.len()),
        }
    }

    fn judge_states(&mut self, arena: &Arena, aim: Aim<'_>) -> Result<(), AllocError> {
        for (number, (kept, aimed)) in (0u32..u32::MAX).zip(aim.kept.iter().zip(aim.aimed)) {
            if *kept && !*aimed {
                let held = self.held_of(arena.state_classes.of(number as usize));
                put(&mut self.held, number as usize, held);
                if held == 0 {
                    self.drop_state(number, 1)?;
                }
            }
        }
        Ok(())
    }

    fn held_of(&self, classes: &[Link]) -> u32 {
        let mut held = 0u32;
        for link in classes {
            if self.open.get(link.target as usize).copied().unwrap_or(0) > 0 {
                held = held.saturating_add(1);
            }
        }
        match self.kind {
            Kind::Mealy => u32::from(held as usize == classes.len()),
            Kind::Moore => held,
        }
    }

    fn drop_state(&mut self, state: u32, round: u32) -> Result<(), AllocError> {
        unmark(&mut self.stands, state as usize);
        put(&mut self.rounds, state as usize, round);
        self.fallen.push(state)?;
        Ok(())
    }

    /// What falls with a state.
    fn fall(
        &mut self,
        arena: &Arena,
        aim: Aim<'_>,
        state: u32,
        meter: &mut Meter,
    ) -> Result<(), Stop> {
        let round = self.rounds.get(state as usize).copied().unwrap_or(0);
        for link in arena.fates_to_states.of(state as usize) {
            if is_in(&self.good, link.target) && !aim.meets_goal(arena.fate(link.target)) {
                unmark(&mut self.good, link.target as usize);
                self.lose_fate(arena, aim, link.target, round, meter)?;
            }
        }
        Ok(())
    }

    /// A fate is good no more.
    fn lose_fate(
        &mut self,
        arena: &Arena,
        aim: Aim<'_>,
        fate: u32,
        round: u32,
        meter: &mut Meter,
    ) -> Result<(), Stop> {
        let classes = arena.classes_of_fates.of(fate as usize);
        meter.take_steps(classes.len())?;
        for link in classes {
            if self.closes(link.target) {
                self.lose_class(arena, aim, link.target, round, meter)?;
            }
        }
        Ok(())
    }

    /// Whether a class is lost with one of its good fates.
    fn closes(&mut self, class: u32) -> bool {
        let Some(open) = self.open.get_mut(class as usize) else {
            return false;
        };
        let was_open = *open > 0;
        *open = match self.kind {
            Kind::Mealy => open.saturating_sub(1),
            Kind::Moore => 0,
        };
        was_open && *open == 0
    }

    fn lose_class(
        &mut self,
        arena: &Arena,
        aim: Aim<'_>,
        class: u32,
        round: u32,
        meter: &mut Meter,
    ) -> Result<(), Stop> {
        let states = arena.states_of_classes.of(class as usize);
        meter.take_steps(states.len())?;
        for link in states {
            if is_in(&self.stands, link.target)
                && !is_in(aim.aimed, link.target)
                && self.lets_go(link.target)
            {
                self.drop_state(link.target, round.saturating_add(1))?;
            }
        }
        Ok(())
    }

    /// Whether a state falls with one of its classes.
    fn lets_go(&mut self, state: u32) -> bool {
        let Some(held) = self.held.get_mut(state as usize) else {
            return false;
        };
        *held = match self.kind {
            Kind::Mealy => 0,
            Kind::Moore => held.saturating_sub(1),
        };
        *held == 0
    }
}

impl Aim<'_> {
    fn is_good(&self, fate: Fate) -> bool {
        match fate {
            Fate::Won => true,
            Fate::Lost(_) => false,
            Fate::Goes(way) => {
                self.meets_goal(fate)
                    || is_in(self.aimed, way.to)
                    || is_in(self.kept, way.to) && self.avoids(way.assumed)
            }
        }
    }

    fn meets_goal(&self, fate: Fate) -> bool {
        match fate {
            Fate::Goes(way) => way.reached & self.goal != 0 && is_in(self.kept, way.to),
            _ => false,
        }
    }

    fn avoids(&self, assumed: u64) -> bool {
        match self.assumption {
            Some(assumption) => assumed & assumption == 0,
            None => false,
        }
    }
}
