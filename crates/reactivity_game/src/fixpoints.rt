//! The triple fixpoint: the greatest set of states from which the system reaches each goal again, each by the least set of those from which
//! it gets nearer or keeps an assumption from being met (Bloem, Jobstmann, Piterman, Pnueli, Sa'ar: Synthesis of reactive(1) designs).

use crate::solutions::{Loss, Reach, Solution};
use crate::traps::{Aim, Trap};
use conjunct_monitors::{Meter, Stop};
use letters_and_lassos::Kind;
use reactivity_arena::{Arena, mark_of};
use std::alloc::{AllocError, Global};
use time_limits::Deadline;

/// How many goals there are, and assumptions that ask for something good.
#[derive(Clone, Copy)]
pub(crate) struct Counts {
    pub(crate) goals: u32,
    pub(crate) assumptions: u32,
}

/// A fixpoint on its way.
#[derive(Drop)]
struct Search<'a> {
    arena: &'a Arena,
    trap: Trap,
    solution: Solution,
    /// The states from which the current goal is reached.
    aimed: Vec<bool>,
    /// For each assumption the rounds in which states fell last.
    rounds: Vec<Vec<u32>>,
    round: u32,
    alloc: Global,
}

/// Who wins from each state. At each trap it asks whether the time is over.
pub(crate) fn solve<D: Deadline>(
    alloc: Global,
    arena: &Arena,
    kind: Kind,
    counts: Counts,
    meter: &mut Meter,
    deadline: &D,
) -> Result<Solution, Stop> {
    let mut search = Search::new(alloc, arena, kind, counts)?;
    let mut stable = 0u32;
    let mut goal = 0u32;
    for _ in 0..u64::MAX {
        if stable >= counts.goals || !search.solution.is_kept(0) {
            break;
        }
        if search.take_goal(goal, meter, deadline)? {
            stable = 0;
        } else {
            stable = stable.saturating_add(1);
        }
        goal = goal.saturating_add(1);
        if goal >= counts.goals {
            goal = 0;
        }
    }
    Ok(search.solution)
}

impl<'a> Search<'a> {
    fn new(
        alloc: Global,
        arena: &'a Arena,
        kind: Kind,
        counts: Counts,
    ) -> Result<Search<'a>, AllocError> {
        let states = arena.states();
        let solution = Solution {
            kept: vec![in alloc; true; states]?,
            reaches: lists_of_reaches(alloc, counts.goals)?,
            losses: vec![in alloc; None; states]?,
            ranks: lists_of_numbers(alloc, counts.assumptions.max(1), states)?,
            goals: counts.goals,
            assumptions: counts.assumptions,
        };
        Ok(Search {
            arena,
            trap: Trap::new(alloc, arena, kind)?,
            solution,
            aimed: vec![in alloc; false; states]?,
            rounds: lists_of_numbers(alloc, counts.assumptions.max(1), states)?,
            round: 0,
            alloc,
        })
    }

    /// Takes away the states from which a goal isn't reached, and tells whether there were any.
    fn take_goal<D: Deadline>(
        &mut self,
        goal: u32,
        meter: &mut Meter,
        deadline: &D,
    ) -> Result<bool, Stop> {
        for aimed in self.aimed.iter_mut() {
            *aimed = false;
        }
        let mut reaches = vec![in self.alloc; None; self.arena.states()]?;
        for level in 0..u32::MAX {
            if !self.take_level(goal, level, &mut reaches, meter, deadline)? {
                break;
            }
        }
        if let Some(own) = self.solution.reaches.get_mut(goal as usize) {
            *own = reaches;
        }
        Ok(self.lose(goal))
    }

    /// Adds the states that get to those of lesser levels, and tells whether there were any.
    fn take_level<D: Deadline>(
        &mut self,
        goal: u32,
        level: u32,
        reaches: &mut [Option<Reach>],
        meter: &mut Meter,
        deadline: &D,
    ) -> Result<bool, Stop> {
        let before = self.aimed.clone()?;
        let mut grew = false;
        for by in 0..self.solution.assumptions.max(1) {
            if deadline.is_over() {
                return Err(Stop::Time);
            }
            let aim = Aim {
                kept: &self.solution.kept,
                aimed: &before,
                goal: mark_of(goal),
                assumption: if self.solution.assumptions > 0 {
                    Some(mark_of(by))
                } else {
                    None
                },
            };
            self.trap.find(self.arena, aim, meter)?;
            if self.note(Reach { level, by }, reaches) {
                grew = true;
            }
        }
        Ok(grew)
    }

    /// Notes the states that stand, and the rounds of those that fell.
    fn note(&mut self, reach: Reach, reaches: &mut [Option<Reach>]) -> bool {
        let mut grew = false;
        let aimed = self.aimed.iter_mut().zip(reaches.iter_mut());
        for ((aimed, own), stands) in aimed.zip(&self.trap.stands) {
            if *stands && !*aimed {
                *aimed = true;
                *own = Some(reach);
                grew = true;
            }
        }
        if let Some(rounds) = self.rounds.get_mut(reach.by as usize) {
            for (own, round) in rounds.iter_mut().zip(&self.trap.rounds) {
                *own = *round;
            }
        }
        grew
    }

    /// Takes away the states from which the goal isn't reached.
    fn lose(&mut self, goal: u32) -> bool {
        let loss = Loss {
            round: self.round,
            goal,
        };
        let mut is_changed = false;
        for state in 0..self.aimed.len() {
            if self.is_lost(state) {
                is_changed = true;
                self.lose_state(state, loss);
            }
        }
        if is_changed {
            self.round = self.round.saturating_add(1);
        }
        is_changed
    }

    fn is_lost(&self, state: usize) -> bool {
        self.solution.kept.get(state).copied() == Some(true)
            && self.aimed.get(state).copied() == Some(false)
    }

    fn lose_state(&mut self, state: usize, loss: Loss) {
        if let Some(kept) = self.solution.kept.get_mut(state) {
            *kept = false;
        }
        if let Some(own) = self.solution.losses.get_mut(state) {
            *own = Some(loss);
        }
        for (ranks, rounds) in self.solution.ranks.iter_mut().zip(&self.rounds) {
            if let (Some(rank), Some(round)) = (ranks.get_mut(state), rounds.get(state)) {
                *rank = *round;
            }
        }
    }
}

fn lists_of_reaches(alloc: Global, count: u32) -> Result<Vec<Vec<Option<Reach>>>, AllocError> {
    let mut lists = Vec::new(alloc);
    for _ in 0..count {
        lists.push(Vec::new(alloc))?;
    }
    Ok(lists)
}

fn lists_of_numbers(alloc: Global, count: u32, size: usize) -> Result<Vec<Vec<u32>>, AllocError> {
    let mut lists = Vec::new(alloc);
    for _ in 0..count {
        lists.push(vec![in alloc; 0; size]?)?;
    }
    Ok(lists)
}
