//! Spare moves: a state goes where each move into it can lead elsewhere, with the same or another output.

use crate::letter_sets::missing;
use crate::machines::{Move, Place, short};
use crate::numbers::Numbered;
use crate::reducing::Reducer;
use crate::supports::set_of;
use annotation_maker::Stop;
use letters_and_lassos::Kind;
use std::alloc::AllocError;

/// Where a machine writes more different letters, no others are tried.
const MOST_OUTPUTS: usize = 16;

/// Of the states to which a move may lead so many are tried, those first whose support lacks least.
const MOST_ENDS: usize = 16;

/// A move as it was before.
#[derive(Clone, Copy)]
struct Change {
    place: Place,
    before: Move,
}

impl Reducer<'_> {
    /// Lets states go whose moves can lead elsewhere, those first that fewest moves lead to. Whether some went.
    pub(crate) fn drop_spare(&mut self) -> Result<bool, Stop> {
        let mut goes = false;
        let outputs = self.outputs()?;
        for state in self.by_uses()? {
            let is_spare = self.machine.is_kept(state) && state != self.machine.start();
            if is_spare && self.drop_one(state, &outputs)? {
                goes = true;
            }
        }
        Ok(goes)
    }

    /// The different letters that are written; none where there are many, or a state writes one letter.
    fn outputs(&self) -> Result<Vec<u32>, AllocError> {
        let mut outputs = Vec::new(self.alloc);
        if self.kind == Kind::Moore {
            return Ok(outputs);
        }
        for state in self.kept()? {
            for step in self.machine.moves(state) {
                if let Some(class) = self.machine.class(step.class)
                    && !outputs.contains(&class.writes)
                {
                    outputs.push(class.writes)?;
                }
                if outputs.len() > MOST_OUTPUTS {
                    return Ok(Vec::new(self.alloc));
                }
            }
        }
        Ok(outputs)
    }

    /// The states that are kept, those first that fewest moves lead to.
    fn by_uses(&self) -> Result<Vec<u32>, AllocError> {
        let mut order = self.kept()?;
        let mut uses = vec![in self.alloc; 0u32; self.machine.count() as usize]?;
        for state in &order {
            for step in self.machine.moves(*state) {
                if let Some(count) = uses.get_mut(step.next as usize) {
                    *count = count.saturating_add(1);
                }
            }
        }
        order.sort_by_cached_key(|state| uses.get(*state as usize).copied().unwrap_or(0))?;
        Ok(order)
    }

    /// Lets a state go, where all moves into it can lead elsewhere.
    fn drop_one(&mut self, state: u32, outputs: &[u32]) -> Result<bool, Stop> {
        let mut changes = Vec::new(self.alloc);
        let outcome = self.leads_elsewhere(state, outputs, &mut changes);
        if let Ok(true) = outcome {
            self.accept()?;
            return Ok(true);
        }
        for _ in 0..changes.len() {
            if let Some(change) = changes.pop() {
                self.machine.put(change.place, change.before);
            }
        }
        self.numbers.undo(0);
        outcome
    }

    /// Leads all moves of other states into this one elsewhere. Whether that can be.
    fn leads_elsewhere(
        &mut self,
        without: u32,
        outputs: &[u32],
        changes: &mut Vec<Change>,
    ) -> Result<bool, Stop> {
        for state in self.kept()? {
            if state == without {
                continue;
            }
            for turn in 0..self.machine.moves(state).len() {
                let place = Place { state, turn };
                let Some(before) = self.machine.at(place) else {
                    break;
                };
                if before.next != without {
                    continue;
                }
                changes.push(Change { place, before })?;
                if !self.turns(place, before, outputs)? {
                    return Ok(false);
                }
            }
        }
        Ok(true)
    }

    /// Leads a move elsewhere, with the same or another output. Whether that can be.
    fn turns(&mut self, place: Place, before: Move, outputs: &[u32]) -> Result<bool, Stop> {
        if self.turns_with(place, before.class, before.next)? {
            return Ok(true);
        }
        for writes in outputs {
            let class = self.machine.class_with(before.class, *writes)?;
            if class != before.class && self.turns_with(place, class, before.next)? {
                return Ok(true);
            }
        }
        Ok(false)
    }

    /// Leads a move elsewhere, on the letters of a class and with its output. Whether that can be.
    fn turns_with(&mut self, place: Place, class: u32, without: u32) -> Result<bool, Stop> {
        for next in self.ends_for(place, class, without)? {
            if self.allows_move(place, Move { class, next })? {
                return Ok(true);
            }
        }
        Ok(false)
    }

    /// The states to which a move may lead, but for one, those first whose support lacks least of what is behind the move.
    fn ends_for(&mut self, place: Place, class: u32, without: u32) -> Result<Vec<u32>, Stop> {
        let behind = set_of(self.alloc, &self.states_behind(place.state, class)?)?;
        let mut order = self.kept()?;
        order.retain(|state| *state != without);
        self.meter
            .take(order.len().saturating_mul(self.supports.looks()))?;
        order.sort_by_cached_key(|state| missing(&behind, self.supports.get(*state)))?;
        order.truncate(MOST_ENDS);
        Ok(order)
    }

    /// The automaton's states behind the pairs of a state, on the letters of a class.
    fn states_behind(&mut self, state: u32, class: u32) -> Result<Vec<u32>, Stop> {
        let mut behind = Vec::new(self.alloc);
        for at in 0..self.numbers.row(state).len() {
            if self.numbers.get(state, at).is_none() {
                continue;
            }
            let ends = self
                .ends
                .of(&self.machine, class, short(at), &mut self.meter)?;
            self.meter.take(ends.len().saturating_add(1))?;
            for end in ends {
                behind.push(end.state)?;
            }
        }
        Ok(behind)
    }

    /// Puts a move at a place, where the numbers allow it.
    fn allows_move(&mut self, place: Place, step: Move) -> Result<bool, Stop> {
        let changes = self.numbers.changes();
        let before = self.machine.at(place);
        self.machine.put(place, step);
        let allows = self.rises_by(place, step)? && self.comes_to_rest()?;
        if !allows {
            self.numbers.undo(changes);
            if let Some(before) = before {
                self.machine.put(place, before);
            }
        }
        Ok(allows)
    }

    /// Lets numbers rise along a move from all pairs of its state. Whether they keep the bound.
    fn rises_by(&mut self, place: Place, step: Move) -> Result<bool, Stop> {
        for at in 0..self.numbers.row(place.state).len() {
            let Some(number) = self.numbers.get(place.state, at) else {
                continue;
            };
            let from = Numbered {
                state: place.state,
                at: short(at),
                number,
            };
            if !self.rises_along(from, step)? {
                return Ok(false);
            }
        }
        Ok(true)
    }
}
