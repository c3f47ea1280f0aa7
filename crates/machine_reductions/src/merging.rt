//! Merging by support: states are led to one whose support has most of theirs.

use crate::machines::short;
use crate::numbers::Numbered;
use crate::reducing::Reducer;
use annotation_maker::Stop;
use std::alloc::AllocError;
use std::cmp::Reverse;
use std::collections::VecDeque;

/// Of a group of states so many parts are tried.
const MOST_PARTS: u32 = 24;

/// Single states are led to others where there are at most so many.
const MOST_OF_PAIRS: usize = 1000;

/// A state that may be led to another one.
#[derive(Clone, Copy, PartialEq, Eq, PartialOrd, Ord)]
struct Pair {
    /// How many states of its support the other one lacks.
    lacking: u32,
    from: u32,
    to: u32,
}

impl Reducer<'_> {
    /// Leads all states to another one whose support lacks few of theirs, or as many as can be. Whether some went.
    pub(crate) fn merge_groups(&mut self, slack: u32) -> Result<bool, Stop> {
        let mut goes = false;
        let mut order = self.kept()?;
        order.sort_by_cached_key(|state| Reverse(self.supports.size(*state)))?;
        for into in order {
            if self.machine.is_kept(into) && self.merge_into(into, slack)? {
                goes = true;
            }
        }
        Ok(goes)
    }

    /// Leads states to this one: all at once, or else halves of them.
    fn merge_into(&mut self, into: u32, slack: u32) -> Result<bool, Stop> {
        let mut goes = false;
        let mut parts = VecDeque::new(self.alloc);
        parts.push_back(self.near(into, slack)?)?;
        for _ in 0..MOST_PARTS {
            let Some(part) = parts.pop_front() else {
                break;
            };
            if self.lead(&part, into)? {
                goes = true;
            } else if part.len() > 1 {
                let (first, second) = part.split_at(part.len() / 2);
                parts.push_back(first.to_vec(self.alloc)?)?;
                parts.push_back(second.to_vec(self.alloc)?)?;
            }
        }
        Ok(goes)
    }

    /// The other states of whose supports this one's lacks at most so many states.
    fn near(&mut self, into: u32, slack: u32) -> Result<Vec<u32>, Stop> {
        let mut near = Vec::new(self.alloc);
        for state in self.kept()? {
            self.meter.take(self.supports.looks())?;
            if state != into && self.supports.lacking(state, into) <= slack {
                near.push(state)?;
            }
        }
        Ok(near)
    }

    /// Leads one state to another, again and again. Whether some went.
    pub(crate) fn merge_pairs(&mut self) -> Result<bool, Stop> {
        let mut goes = false;
        for pair in self.pairs()? {
            let stands = self.machine.is_kept(pair.from) && self.machine.is_kept(pair.to);
            if stands && self.lead(&[pair.from], pair.to)? {
                goes = true;
            }
        }
        Ok(goes)
    }

    /// All pairs, those first whose merging adds least to a support.
    fn pairs(&mut self) -> Result<Vec<Pair>, Stop> {
        let mut pairs = Vec::new(self.alloc);
        let kept = self.kept()?;
        if kept.len() > MOST_OF_PAIRS {
            return Ok(pairs);
        }
        for from in &kept {
            self.meter
                .take(kept.len().saturating_mul(self.supports.looks()))?;
            self.push_pairs(&mut pairs, *from, &kept)?;
        }
        pairs.sort_unstable();
        Ok(pairs)
    }

    fn push_pairs(&self, pairs: &mut Vec<Pair>, from: u32, kept: &[u32]) -> Result<(), AllocError> {
        for to in kept {
            if *to != from {
                pairs.push(Pair {
                    lacking: self.supports.lacking(from, *to),
                    from,
                    to: *to,
                })?;
            }
        }
        Ok(())
    }

    /// Leads states to another one, where the numbers allow it.
    fn lead(&mut self, part: &[u32], into: u32) -> Result<bool, Stop> {
        let mut is_led = false;
        for state in part {
            if *state != into && self.machine.is_kept(*state) {
                self.machine.lead(*state, into);
                is_led = true;
            }
        }
        if !is_led {
            return Ok(false);
        }
        let outcome = self.allows(part, into);
        if let Ok(true) = outcome {
            self.accept()?;
            return Ok(true);
        }
        for state in part {
            self.machine.lead(*state, *state);
        }
        self.numbers.undo(0);
        outcome
    }

    /// Whether the numbers allow that states are led to another one: it stands in their pairs, too.
    fn allows(&mut self, part: &[u32], into: u32) -> Result<bool, Stop> {
        for state in part {
            if !self.takes_pairs(*state, into)? {
                return Ok(false);
            }
        }
        self.comes_to_rest()
    }

    /// Numbers the pairs of a state for another one. Whether they keep the bound.
    fn takes_pairs(&mut self, state: u32, into: u32) -> Result<bool, Stop> {
        let count = self.numbers.row(state).len();
        self.meter.take(count)?;
        for at in 0..count {
            let Some(number) = self.numbers.get(state, at) else {
                continue;
            };
            let to = Numbered {
                state: into,
                at: short(at),
                number,
            };
            if !self.numbers.raise(to)? {
                return Ok(false);
            }
        }
        Ok(true)
    }
}
