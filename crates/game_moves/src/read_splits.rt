//! The letters that are read, split into classes in which most can happen.

use crate::bit_sets::BitSet;
use crate::items::Item;
use crate::positions::are_at_most;
use crate::tallies::{Asked, Tally};
use game_arena::{Literals, Meter, Stop};
use std::alloc::{AllocError, Global};

/// Letters with these literals, and the places of the items that they leave possible.
#[derive(Drop)]
pub(crate) struct Branch {
    pub(crate) known: Literals,
    pub(crate) possible: Vec<u32>,
}

impl Branch {
    /// All letters.
    pub(crate) fn whole(alloc: Global, items: &[Item]) -> Result<Branch, AllocError> {
        let mut possible = Vec::new(alloc);
        for (place, _) in (0u32..u32::MAX).zip(items) {
            possible.push(place)?;
        }
        Ok(Branch {
            known: Literals::ANY,
            possible,
        })
    }

    /// All letters, with the items that this letter leaves possible which is written.
    pub(crate) fn written(
        alloc: Global,
        items: &[Item],
        writes: u64,
    ) -> Result<Branch, AllocError> {
        let mut possible = Vec::new(alloc);
        for (place, item) in (0u32..u32::MAX).zip(items) {
            if item.write.fits(writes) {
                possible.push(place)?;
            }
        }
        Ok(Branch {
            known: Literals::ANY,
            possible,
        })
    }

    /// The signal that is asked for most often among those that are read and not known yet.
    fn next_read(&self, items: &[Item]) -> Option<Asked> {
        let mut tally = Tally::new();
        for place in &self.possible {
            if let Some(item) = items.get(*place as usize) {
                tally.add(item.read.undecided(self.known));
            }
        }
        tally.most_asked()
    }

    /// The letters that have a signal at this value.
    fn half(
        &self,
        alloc: Global,
        items: &[Item],
        signal: u32,
        value: bool,
    ) -> Result<Branch, AllocError> {
        let known = self.known.with(signal, value);
        let mut possible = Vec::with_capacity(alloc, self.possible.len())?;
        for place in &self.possible {
            if let Some(item) = items.get(*place as usize)
                && !item.read.clashes(known)
            {
                possible.push(*place)?;
            }
        }
        Ok(Branch { known, possible })
    }

    /// Both halves by the signal that is asked for most often, that on top in which more items stay; or the branch itself, where no
    /// signal is asked for.
    pub(crate) fn split_read(
        self,
        alloc: Global,
        items: &[Item],
        branches: &mut Vec<Branch>,
    ) -> Result<Option<Branch>, AllocError> {
        let Some(asked) = self.next_read(items) else {
            return Ok(Some(self));
        };
        let first = asked.on >= asked.off;
        branches.push(self.half(alloc, items, asked.signal, !first)?)?;
        branches.push(self.half(alloc, items, asked.signal, first)?)?;
        Ok(None)
    }
}

/// Letters on which the same items are possible: most items that some letter leaves possible.
#[derive(Drop)]
pub(crate) struct ReadClass {
    pub(crate) effects: BitSet,
    pub(crate) possible: Vec<u32>,
}

/// The names of the effects of some items.
pub(crate) fn effects_of(
    alloc: Global,
    possible: &[u32],
    names: &[u32],
) -> Result<BitSet, AllocError> {
    let mut effects = BitSet::new(alloc, names.len())?;
    for place in possible {
        if let Some(name) = names.get(*place as usize) {
            effects.insert(*name);
        }
    }
    Ok(effects)
}

/// The classes of letters on which most effects are possible. To answer them is to answer all letters.
pub(crate) fn read_classes(
    alloc: Global,
    items: &[Item],
    names: &[u32],
    meter: &mut Meter,
) -> Result<Vec<ReadClass>, Stop> {
    let mut classes: Vec<ReadClass> = Vec::new(alloc);
    let mut branches = vec![in alloc; Branch::whole(alloc, items)?]?;
    for _ in 0..u64::MAX {
        let Some(branch) = branches.pop() else {
            break;
        };
        meter.take(branch.possible.len().saturating_add(classes.len()))?;
        let effects = effects_of(alloc, &branch.possible, names)?;
        if place_above(&classes, &effects).is_some() {
            continue;
        }
        if let Some(leaf) = branch.split_read(alloc, items, &mut branches)? {
            classes.retain(|class| !class.effects.is_within(&effects));
            classes.push(ReadClass {
                effects,
                possible: leaf.possible,
            })?;
        }
    }
    Ok(classes)
}

/// The place of the first class on which all these effects are possible.
pub(crate) fn place_above(classes: &[ReadClass], effects: &BitSet) -> Option<usize> {
    for (place, class) in classes.iter().enumerate() {
        if effects.is_within(&class.effects) {
            return Some(place);
        }
    }
    None
}

/// The bytes of the states that some items reach.
pub(crate) fn reached_by(
    alloc: Global,
    items: &[Item],
    possible: &[u32],
    states: usize,
) -> Result<Vec<u8>, AllocError> {
    let mut reached = vec![in alloc; 0; states]?;
    for place in possible {
        if let Some(item) = items.get(*place as usize) {
            raise(&mut reached, item);
        }
    }
    Ok(reached)
}

/// Raises the byte of the state that an item reaches.
pub(crate) fn raise(reached: &mut [u8], item: &Item) {
    if let Some(to) = item.to {
        if let Some(byte) = reached.get_mut(to as usize) {
            *byte = item.number.max(*byte);
        }
    }
}

/// The greatest positions that letters lead to where these items are possible.
pub(crate) fn greatest_reached(
    alloc: Global,
    items: &[Item],
    whole: Branch,
    states: usize,
    meter: &mut Meter,
) -> Result<Vec<Vec<u8>>, Stop> {
    let mut greatest: Vec<Vec<u8>> = Vec::new(alloc);
    let mut branches = vec![in alloc; whole]?;
    for _ in 0..u64::MAX {
        let Some(branch) = branches.pop() else {
            break;
        };
        meter.take(branch.possible.len().saturating_add(greatest.len()))?;
        let reached = reached_by(alloc, items, &branch.possible, states)?;
        if is_below(&reached, &greatest) {
            continue;
        }
        if branch.split_read(alloc, items, &mut branches)?.is_some() {
            greatest.retain(|other| !are_at_most(other, &reached));
            greatest.push(reached)?;
        }
    }
    Ok(greatest)
}

/// Whether some of the others has at least these bytes.
fn is_below(bytes: &[u8], others: &[Vec<u8>]) -> bool {
    for other in others {
        if are_at_most(bytes, other) {
            return true;
        }
    }
    false
}
