//! Guarantees of a text.

use std::alloc::{AllocError, Global};

/// The most guarantees that are searched.
const MOST_GUARANTEES: usize = 64;

/// Which guarantees of a text are kept, of at most 64.
#[derive(Clone, Copy, Debug, PartialEq, Eq)]
pub struct Guarantees {
    /// How many the text has.
    pub total: u64,
    /// By their numbers less one.
    kept: [bool; MOST_GUARANTEES],
}

impl Guarantees {
    /// Those that are kept, of as many as there are.
    pub fn new(keep: &[bool]) -> Guarantees {
        let mut kept = [false; MOST_GUARANTEES];
        for (place, is_kept) in kept.iter_mut().zip(keep) {
            *place = *is_kept;
        }
        Guarantees {
            total: keep.len() as u64,
            kept,
        }
    }

    /// The numbers of those that are kept, from 1 on.
    pub fn numbers(&self, alloc: Global) -> Result<Vec<u64>, AllocError> {
        let mut numbers = Vec::new(alloc);
        for (number, is_kept) in (1..u64::MAX).zip(&self.kept) {
            if *is_kept {
                numbers.push(number)?;
            }
        }
        Ok(numbers)
    }
}
