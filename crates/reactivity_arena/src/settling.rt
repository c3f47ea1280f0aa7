//! What follows for the other conjuncts where some are broken.
//!
//! Where an assumption is broken, and no guarantee of a lesser depth is, nothing that is owed under it is owed any more, so all conjuncts of
//! its depth and below count as met. Where a guarantee is broken, only an assumption of its depth or of a lesser one can save the system;
//! assumptions below count as met.

use crate::rows::{Cast, Role};
use conjunct_monitors::BROKEN;

/// What a row comes to.
#[derive(Clone, Copy, PartialEq, Eq)]
pub(crate) enum Settled {
    Open,
    /// All guarantees are met for good, or free.
    Won,
    /// This guarantee is broken for good.
    Lost(u32),
}

/// The nodes of what is met for good and of what is broken.
#[derive(Clone, Copy)]
pub(crate) struct Fixed {
    pub(crate) met: u32,
    pub(crate) broken: u32,
    /// Whether it is kept which guarantee was broken first.
    pub(crate) is_told: bool,
}

/// The least depths in which something is broken, and the first guarantee of that depth that is.
#[derive(Clone, Copy)]
struct Falls {
    assumption: u32,
    guarantee: u32,
    first: u32,
}

impl Cast {
    /// Puts what follows into a row of nodes.
    pub(crate) fn settle(&self, row: &mut [u32], fixed: Fixed) -> Settled {
        let falls = self.falls(row);
        if falls.assumption != u32::MAX && falls.assumption <= falls.guarantee {
            self.free(row, falls.assumption, fixed);
        } else if falls.guarantee != u32::MAX {
            self.give_up(row, falls, fixed);
            if !self.may_be_saved(row, falls.guarantee, fixed) {
                return Settled::Lost(falls.first);
            }
        }
        if self.owes_nothing(row, fixed) {
            return Settled::Won;
        }
        Settled::Open
    }

    fn falls(&self, row: &[u32]) -> Falls {
        let mut falls = Falls {
            assumption: u32::MAX,
            guarantee: u32::MAX,
            first: 0,
        };
        for ((place, node), role) in (0u32..u32::MAX).zip(row).zip(&self.roles) {
            if self.is_broken(*node) {
                falls.add(place, *role);
            }
        }
        falls
    }

    fn is_broken(&self, node: u32) -> bool {
        match self.leaves.if_end(node) {
            Some(end) => end.place == BROKEN,
            None => false,
        }
    }

    /// Nothing of a depth or below is asked or owed any more.
    fn free(&self, row: &mut [u32], depth: u32, fixed: Fixed) {
        for (node, role) in row.iter_mut().zip(&self.roles) {
            if role.depth >= depth {
                *node = fixed.met;
            }
        }
    }

    /// A guarantee is broken: those of its depth and below are as good as broken.
    fn give_up(&self, row: &mut [u32], falls: Falls, fixed: Fixed) {
        for ((place, node), role) in (0u32..u32::MAX).zip(row.iter_mut()).zip(&self.roles) {
            if role.is_assumption && role.depth > falls.guarantee {
                *node = fixed.met;
            } else if !role.is_assumption && role.depth >= falls.guarantee {
                *node = if fixed.is_told && place != falls.first {
                    fixed.met
                } else {
                    fixed.broken
                };
            }
        }
    }

    fn may_be_saved(&self, row: &[u32], depth: u32, fixed: Fixed) -> bool {
        for (node, role) in row.iter().zip(&self.roles) {
            if role.is_assumption && role.depth <= depth && *node != fixed.met {
                return true;
            }
        }
        false
    }

    fn owes_nothing(&self, row: &[u32], fixed: Fixed) -> bool {
        for (node, role) in row.iter().zip(&self.roles) {
            if !role.is_assumption && *node != fixed.met {
                return false;
            }
        }
        true
    }

    /// Whether a state of all monitors has a broken guarantee.
    pub(crate) fn is_given_up(&self, states: &[u32]) -> bool {
        for (state, role) in states.iter().zip(&self.roles) {
            if !role.is_assumption && *state == BROKEN {
                return true;
            }
        }
        false
    }
}

impl Falls {
    fn add(&mut self, place: u32, role: Role) {
        if role.is_assumption {
            self.assumption = self.assumption.min(role.depth);
        } else if role.depth < self.guarantee {
            self.guarantee = role.depth;
            self.first = place;
        }
    }
}
