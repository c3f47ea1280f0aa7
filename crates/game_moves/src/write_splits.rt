//! What may be written, split so that only the answers with least that happens remain.

use crate::bit_sets::BitSet;
use crate::items::Item;
use crate::positions::are_at_most;
use crate::read_splits::{Branch, effects_of, raise};
use crate::tallies::Tally;
use game_arena::{Literals, Meter, Stop};
use std::alloc::{AllocError, Global};

/// At most so many answers to a class are looked at.
const MOST_ANSWERS: usize = 3000;

/// What is written, and the least position that it leads to.
#[derive(Drop)]
pub(crate) struct Written {
    pub(crate) writes: u64,
    pub(crate) reached: Vec<u8>,
}

/// Letters with these literals, the items that may still happen, and the bytes of the states that are reached on all of them.
#[derive(Drop)]
struct Draft {
    known: Literals,
    open: Vec<Item>,
    reached: Vec<u8>,
}

/// What an item means to a draft.
#[derive(Clone, Copy)]
enum Prospect {
    /// It can't happen, or changes nothing.
    Gone,
    /// It happens on all letters, and all is lost.
    Lost,
    /// It happens on all letters.
    Sure,
    /// It is lost on one literal alone, so that its opposite is forced.
    Forced(Literals),
    /// It may happen.
    Open(Literals),
}

impl Draft {
    /// Whether an item changes nothing, since its state is reached with its number.
    fn has(&self, item: &Item) -> bool {
        match item.to {
            Some(to) => self.reached.get(to as usize).copied().unwrap_or(0) >= item.number,
            None => false,
        }
    }

    fn prospect(&self, item: &Item) -> Prospect {
        if item.write.clashes(self.known) {
            return Prospect::Gone;
        }
        let left = item.write.undecided(self.known);
        match item.to {
            Some(_) if self.has(item) => Prospect::Gone,
            Some(_) if left.is_any() => Prospect::Sure,
            Some(_) => Prospect::Open(left),
            None if left.is_any() => Prospect::Lost,
            None if left.count() == 1 => Prospect::Forced(left.opposite()),
            None => Prospect::Open(left),
        }
    }

    /// Takes what is sure and forced, one round; None where all is lost, else whether a literal was forced.
    fn settle_once(&mut self, alloc: Global) -> Result<Option<bool>, AllocError> {
        let mut open = Vec::with_capacity(alloc, self.open.len())?;
        let mut forced = Literals::ANY;
        for place in 0..self.open.len() {
            let Some(item) = self.open.get(place).copied() else {
                break;
            };
            match self.prospect(&item) {
                Prospect::Gone => {}
                Prospect::Lost => return Ok(None),
                Prospect::Sure => raise(&mut self.reached, &item),
                Prospect::Forced(literals) => forced = forced.and(literals),
                Prospect::Open(left) => open.push(Item {
                    write: left,
                    ..item
                })?,
            }
        }
        self.open = open;
        self.known = self.known.and(forced);
        if self.known.on & self.known.off != 0 {
            return Ok(None);
        }
        Ok(Some(!forced.is_any()))
    }

    /// Takes what is sure and forced. Whether some letter isn't lost at once.
    fn settle(&mut self, alloc: Global) -> Result<bool, AllocError> {
        for _ in 0..33 {
            match self.settle_once(alloc)? {
                None => return Ok(false),
                Some(true) => {}
                Some(false) => break,
            }
        }
        let mut open = Vec::with_capacity(alloc, self.open.len())?;
        for item in &self.open {
            if !self.has(item) {
                open.push(*item)?;
            }
        }
        self.open = open;
        Ok(true)
    }

    fn half(&self, signal: u32, value: bool) -> Result<Draft, AllocError> {
        Ok(Draft {
            known: self.known.with(signal, value),
            open: self.open.clone()?,
            reached: self.reached.clone()?,
        })
    }
}

/// The answers to a class of letters that lead to least positions, and whether some may be missing.
pub(crate) fn least_answers(
    alloc: Global,
    items: Vec<Item>,
    states: usize,
    meter: &mut Meter,
    cut: &mut bool,
) -> Result<Vec<Written>, Stop> {
    let mut answers: Vec<Written> = Vec::new(alloc);
    let first = Draft {
        known: Literals::ANY,
        open: items,
        reached: vec![in alloc; 0; states]?,
    };
    let mut drafts = vec![in alloc; first]?;
    for _ in 0..u64::MAX {
        let Some(mut draft) = drafts.pop() else {
            break;
        };
        meter.take(draft.open.len().saturating_add(answers.len()))?;
        if !draft.settle(alloc)? || is_answered(&answers, &draft) {
            continue;
        }
        if answers.len() >= MOST_ANSWERS {
            *cut = true;
            break;
        }
        grow_answers(&mut answers, draft, &mut drafts)?;
    }
    Ok(answers)
}

/// Whether some answer leads to at most what a draft has reached.
fn is_answered(answers: &[Written], draft: &Draft) -> bool {
    for answer in answers {
        if are_at_most(&answer.reached, &draft.reached) {
            return true;
        }
    }
    false
}

/// Takes a draft with nothing open for an answer, and splits another by the signal that is asked for most often.
fn grow_answers(
    answers: &mut Vec<Written>,
    draft: Draft,
    drafts: &mut Vec<Draft>,
) -> Result<(), AllocError> {
    let mut tally = Tally::new();
    for item in &draft.open {
        tally.add(item.write.undecided(draft.known));
    }
    match tally.most_asked() {
        None => {
            answers.retain(|other| !are_at_most(&draft.reached, &other.reached));
            answers.push(Written {
                writes: draft.known.on,
                reached: draft.reached,
            })?;
        }
        Some(asked) => {
            let first = asked.on <= asked.off;
            drafts.push(draft.half(asked.signal, !first)?)?;
            drafts.push(draft.half(asked.signal, first)?)?;
        }
    }
    Ok(())
}

/// What a Moore machine writes, and the items that it leaves possible.
#[derive(Drop)]
pub(crate) struct WriteClass {
    effects: BitSet,
    pub(crate) possible: Vec<u32>,
    pub(crate) writes: u64,
}

/// The letters that leave least effects possible, and whether some may be missing.
pub(crate) fn write_classes(
    alloc: Global,
    items: &[Item],
    names: &[u32],
    meter: &mut Meter,
    cut: &mut bool,
) -> Result<Vec<WriteClass>, Stop> {
    let mut classes: Vec<WriteClass> = Vec::new(alloc);
    let mut branches = vec![in alloc; Branch::whole(alloc, items)?]?;
    for _ in 0..u64::MAX {
        let Some(mut branch) = branches.pop() else {
            break;
        };
        meter.take(branch.possible.len().saturating_add(classes.len()))?;
        if !branch.avoid(alloc, items)? {
            continue;
        }
        let sure = sure_effects(alloc, items, names, &branch)?;
        if is_above(&sure, &classes) {
            continue;
        }
        if classes.len() >= MOST_ANSWERS {
            *cut = true;
            break;
        }
        grow_classes(&mut classes, alloc, items, branch, sure, &mut branches)?;
    }
    Ok(classes)
}

/// Whether all effects of some class are among these.
fn is_above(effects: &BitSet, classes: &[WriteClass]) -> bool {
    for class in classes {
        if class.effects.is_within(effects) {
            return true;
        }
    }
    false
}

impl Branch {
    /// Lets the items go that can't happen, and takes the literals without which an item loses. Whether no item surely loses. What is
    /// lost on some letter that is read counts as lost.
    fn avoid(&mut self, alloc: Global, items: &[Item]) -> Result<bool, AllocError> {
        for _ in 0..33 {
            match self.avoid_once(alloc, items)? {
                None => return Ok(false),
                Some(true) => {}
                Some(false) => break,
            }
        }
        Ok(true)
    }

    /// One round; None where an item surely loses, else whether a literal was forced.
    fn avoid_once(&mut self, alloc: Global, items: &[Item]) -> Result<Option<bool>, AllocError> {
        let mut left = Vec::with_capacity(alloc, self.possible.len())?;
        let mut forced = Literals::ANY;
        for place in &self.possible {
            match self.prospect(items, *place) {
                Prospect::Gone | Prospect::Sure => {}
                Prospect::Lost => return Ok(None),
                Prospect::Forced(literals) => forced = forced.and(literals),
                Prospect::Open(_) => left.push(*place)?,
            }
        }
        self.possible = left;
        self.known = self.known.and(forced);
        if self.known.on & self.known.off != 0 {
            return Ok(None);
        }
        Ok(Some(!forced.is_any()))
    }

    /// What the item at a place means to the branch. One that happens on all letters stays open.
    fn prospect(&self, items: &[Item], place: u32) -> Prospect {
        let Some(item) = items.get(place as usize) else {
            return Prospect::Gone;
        };
        if item.write.clashes(self.known) {
            return Prospect::Gone;
        }
        let left = item.write.undecided(self.known);
        match (item.to, left.count()) {
            (None, 0) => Prospect::Lost,
            (None, 1) => Prospect::Forced(left.opposite()),
            _ => Prospect::Open(left),
        }
    }
}

/// The effects of the items that happen whatever else is written.
fn sure_effects(
    alloc: Global,
    items: &[Item],
    names: &[u32],
    branch: &Branch,
) -> Result<BitSet, AllocError> {
    let mut sure = Vec::new(alloc);
    for place in &branch.possible {
        if let Some(item) = items.get(*place as usize) {
            if item.write.undecided(branch.known).is_any() {
                sure.push(*place)?;
            }
        }
    }
    effects_of(alloc, &sure, names)
}

/// Takes a branch that decides all items for a class, and splits another by the signal that is asked for most often.
fn grow_classes(
    classes: &mut Vec<WriteClass>,
    alloc: Global,
    items: &[Item],
    branch: Branch,
    effects: BitSet,
    branches: &mut Vec<Branch>,
) -> Result<(), AllocError> {
    let mut tally = Tally::new();
    for place in &branch.possible {
        if let Some(item) = items.get(*place as usize) {
            tally.add(item.write.undecided(branch.known));
        }
    }
    let Some(asked) = tally.most_asked() else {
        classes.retain(|class| !effects.is_within(&class.effects));
        classes.push(WriteClass {
            effects,
            possible: branch.possible,
            writes: branch.known.on,
        })?;
        return Ok(());
    };
    let first = asked.on <= asked.off;
    for value in [!first, first] {
        branches.push(Branch {
            known: branch.known.with(asked.signal, value),
            possible: branch.possible.to_vec(alloc)?,
        })?;
    }
    Ok(())
}
