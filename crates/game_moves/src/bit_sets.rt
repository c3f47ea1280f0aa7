//! Sets of small numbers as bits.

use std::alloc::{AllocError, Global};

#[derive(Drop)]
pub(crate) struct BitSet {
    words: Vec<u64>,
}

impl BitSet {
    /// The empty set of numbers below `count`.
    pub(crate) fn new(alloc: Global, count: usize) -> Result<BitSet, AllocError> {
        Ok(BitSet {
            words: vec![in alloc; 0; (count / 64).saturating_add(1)]?,
        })
    }

    pub(crate) fn insert(&mut self, number: u32) {
        if let Some(word) = self.words.get_mut(number as usize / 64) {
            *word |= 1 << (number % 64);
        }
    }

    pub(crate) fn is_within(&self, other: &BitSet) -> bool {
        for (own, others) in self.words.iter().zip(&other.words) {
            if *own & !*others != 0 {
                return false;
            }
        }
        true
    }
}
