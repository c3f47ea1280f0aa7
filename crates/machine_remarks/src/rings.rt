//! Places with ways between them, and the rings of these.

use std::alloc::{AllocError, Global};

/// Places by the order in which they were met, the start first, with the places to which ways lead.
#[derive(Drop)]
pub(crate) struct Places {
    rejects: Vec<bool>,
    ends: Vec<Vec<u32>>,
}

impl Places {
    pub(crate) fn new(alloc: Global) -> Places {
        Places {
            rejects: Vec::new(alloc),
            ends: Vec::new(alloc),
        }
    }

    /// Adds the next place.
    pub(crate) fn push(&mut self, rejects: bool, ends: Vec<u32>) -> Result<(), AllocError> {
        self.rejects.push(rejects)?;
        self.ends.push(ends)?;
        Ok(())
    }

    fn ends_of(&self, place: u32) -> &[u32] {
        match self.ends.get(place as usize) {
            Some(ends) => ends.as_slice(),
            None => &[],
        }
    }

    fn is_rejecting(&self, place: u32) -> bool {
        self.rejects.get(place as usize).copied().unwrap_or(false)
    }

    /// Whether some ring that is reached from the start goes through a rejecting place. It takes time linear in the ways: rings are looked for in
    /// the order in which a walk in depth leaves their places, so that what was met in vain for one of them needn't be met for the next.
    pub(crate) fn have_rejecting_ring(&self, alloc: Global) -> Result<bool, AllocError> {
        let mut met = vec![in alloc; false; self.rejects.len()]?;
        for place in &self.left_in_depth(alloc)? {
            if self.is_rejecting(*place) && self.lead_back(alloc, *place, &mut met)? {
                return Ok(true);
            }
        }
        Ok(false)
    }

    /// The places that are reached from the start, those first that a walk in depth leaves first.
    fn left_in_depth(&self, alloc: Global) -> Result<Vec<u32>, AllocError> {
        let mut met = vec![in alloc; false; self.rejects.len()]?;
        let mut left = Vec::new(alloc);
        let mut stack = Vec::new(alloc);
        meet(&mut met, 0);
        stack.push((0u32, 0usize))?;
        for _ in 0..u64::MAX {
            let Some((place, turn)) = stack.pop() else {
                break;
            };
            match self.ends_of(place).get(turn).copied() {
                None => left.push(place)?,
                Some(end) => {
                    stack.push((place, turn.saturating_add(1)))?;
                    if meet(&mut met, end) {
                        stack.push((end, 0))?;
                    }
                }
            }
        }
        Ok(left)
    }

    /// Whether a way from a place leads back to it, through places that weren't met.
    fn lead_back(&self, alloc: Global, start: u32, met: &mut [bool]) -> Result<bool, AllocError> {
        let mut stack = Vec::new(alloc);
        stack.push(start)?;
        for _ in 0..u64::MAX {
            let Some(place) = stack.pop() else {
                break;
            };
            if self.ends_of(place).contains(&start) {
                return Ok(true);
            }
            add_new(self.ends_of(place), met, &mut stack)?;
        }
        Ok(false)
    }
}

/// Adds the places that weren't met.
fn add_new(ends: &[u32], met: &mut [bool], stack: &mut Vec<u32>) -> Result<(), AllocError> {
    for end in ends {
        if meet(met, *end) {
            stack.push(*end)?;
        }
    }
    Ok(())
}

/// Meets a place. Whether it wasn't met before.
fn meet(met: &mut [bool], place: u32) -> bool {
    match met.get_mut(place as usize) {
        Some(mark) => {
            let is_new = !*mark;
            *mark = true;
            is_new
        },
        None => false,
    }
}
