//! How the winner plays: from a state, with what it remembers, which fates it takes and what it remembers then.

use crate::solutions::{Loss, Solution};
use letters_and_lassos::Side;
use reactivity_arena::{Fate, Way, mark_of};

/// Where a strategy is: anywhere, since all is decided, or in a state of the product with the goal that the system aims at, or with the
/// assumption that the environment meets next.
#[derive(Clone, Copy, Debug, PartialEq, Eq, Hash)]
pub(crate) enum Spot {
    Free,
    At(u32, u32),
}

/// A fate that is taken. The less it costs the nearer it is.
#[derive(Clone, Copy)]
pub(crate) struct Choice {
    pub(crate) cost: u64,
    pub(crate) spot: Spot,
}

/// The winner's view of the solution.
#[derive(Clone, Copy)]
pub(crate) struct View<'a> {
    pub(crate) side: Side,
    pub(crate) solution: &'a Solution,
}

/// What a step costs that keeps an assumption from being met.
const WAITS: u64 = 1_000_000;

/// What a step to a lesser level costs, beside the level.
const NEARS: u64 = 1_000;

impl View<'_> {
    /// What becomes of a spot on a fate; None where the winner doesn't take it.
    pub(crate) fn choice(&self, state: u32, memory: u32, fate: Fate) -> Option<Choice> {
        match (self.side, fate) {
            (Side::System, Fate::Won) | (Side::Environment, Fate::Lost(_)) => Some(Choice {
                cost: 0,
                spot: Spot::Free,
            }),
            (Side::System, Fate::Lost(_)) | (Side::Environment, Fate::Won) => None,
            (Side::System, Fate::Goes(way)) => self.system_choice(state, memory, way),
            (Side::Environment, Fate::Goes(way)) => self.environment_choice(state, memory, way),
        }
    }

    fn system_choice(&self, state: u32, goal: u32, way: Way) -> Option<Choice> {
        if !self.solution.is_kept(way.to) {
            return None;
        }
        if way.reached & mark_of(goal) != 0 {
            let next = next_memory(goal, way.reached, self.solution.goals);
            return Some(Choice {
                cost: 0,
                spot: Spot::At(way.to, next),
            });
        }
        Some(Choice {
            cost: self.nearing_cost(state, goal, way)?,
            spot: Spot::At(way.to, goal),
        })
    }

    /// What it costs to go a way on which the goal isn't met.
    fn nearing_cost(&self, state: u32, goal: u32, way: Way) -> Option<u64> {
        let from = self.solution.reach(goal, state)?;
        let to = self.solution.reach(goal, way.to)?;
        if to.level < from.level {
            return Some(NEARS.saturating_add(u64::from(to.level)));
        }
        let keeps_away = to.by < from.by || to.by == from.by && way.assumed & mark_of(from.by) == 0;
        if self.solution.assumptions > 0 && to.level == from.level && keeps_away {
            return Some(WAITS);
        }
        None
    }

    fn environment_choice(&self, state: u32, assumption: u32, way: Way) -> Option<Choice> {
        let from = self.solution.loss(state)?;
        let to = self.solution.loss(way.to)?;
        if to.round < from.round {
            return Some(Choice {
                cost: u64::from(to.round),
                spot: Spot::At(way.to, 0),
            });
        }
        let next = self.memory_behind(state, assumption, way, from, to)?;
        Some(Choice {
            cost: WAITS.saturating_add(u64::from(self.solution.rank(assumption, way.to))),
            spot: Spot::At(way.to, next),
        })
    }

    /// The assumption that is met next behind a way on which the goal isn't met.
    fn memory_behind(
        &self,
        state: u32,
        assumption: u32,
        way: Way,
        from: Loss,
        to: Loss,
    ) -> Option<u32> {
        if to.round > from.round || way.reached & mark_of(from.goal) != 0 {
            return None;
        }
        if self.solution.assumptions == 0 {
            return Some(0);
        }
        if way.assumed & mark_of(assumption) != 0 {
            return Some(next_memory(assumption, way.assumed, self.solution.assumptions));
        }
        let nears = self.solution.rank(assumption, way.to) < self.solution.rank(assumption, state);
        if nears { Some(assumption) } else { None }
    }
}

/// The number behind one, in turn, over those that are met as well.
fn next_memory(number: u32, met: u64, count: u32) -> u32 {
    let mut next = number;
    for _ in 0..count {
        next = next.saturating_add(1);
        if next >= count {
            next = 0;
        }
        if met & mark_of(next) == 0 {
            break;
        }
    }
    next
}
