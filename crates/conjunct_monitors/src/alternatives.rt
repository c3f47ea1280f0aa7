//! Alternatives: sets of obligations of which one has to be met, none within another, in rising order.

use crate::obligations::Obligations;
use indexmap::IndexSet;
use std::alloc::{AllocError, Global};

/// All alternatives that were met, by their numbers.
#[derive(Drop)]
pub(crate) struct AllAlternatives {
    sets: IndexSet<Vec<Obligations>>,
    alloc: Global,
}

/// The number of no alternatives: nothing can be done any more.
pub(crate) const NOTHING: u32 = 0;

/// The number of the alternative without obligations: all is done.
pub(crate) const DONE: u32 = 1;

impl AllAlternatives {
    pub(crate) fn new(alloc: Global) -> Result<AllAlternatives, AllocError> {
        let mut sets = IndexSet::new(alloc);
        sets.insert(Vec::new(alloc))?;
        sets.insert(vec![in alloc; Obligations::NONE]?)?;
        Ok(AllAlternatives { sets, alloc })
    }

    /// The alternatives of a number.
    pub(crate) fn of(&self, number: u32) -> &[Obligations] {
        match self.sets.get_index(number as usize) {
            Some(set) => set,
            None => &[],
        }
    }

    /// How many alternatives a number stands for.
    pub(crate) fn size(&self, number: u32) -> usize {
        self.of(number).len()
    }

    /// The number of the one alternative.
    pub(crate) fn only(&mut self, obligations: Obligations) -> Result<u32, AllocError> {
        let set = vec![in self.alloc; obligations]?;
        self.number_of(set)
    }

    /// Both lists of alternatives together.
    pub(crate) fn either(&mut self, one: u32, other: u32) -> Result<u32, AllocError> {
        let mut set = self.of(one).to_vec(self.alloc)?;
        for obligations in self.of(other) {
            insert_least(&mut set, *obligations)?;
        }
        self.number_of(set)
    }

    /// What one of each has to be met for.
    pub(crate) fn both(&mut self, one: u32, other: u32) -> Result<u32, AllocError> {
        let mut set = Vec::new(self.alloc);
        for first in self.of(one) {
            for second in self.of(other) {
                insert_least(&mut set, first.and(*second))?;
            }
        }
        self.number_of(set)
    }

    /// The alternatives without these obligations.
    pub(crate) fn without(
        &mut self,
        number: u32,
        left_out: Obligations,
    ) -> Result<u32, AllocError> {
        let mut set = Vec::new(self.alloc);
        for obligations in self.of(number) {
            insert_least(&mut set, obligations.without(left_out))?;
        }
        self.number_of(set)
    }

    /// The obligations, where there is one alternative.
    pub(crate) fn if_only(&self, number: u32) -> Option<Obligations> {
        match self.of(number) {
            [only] => Some(*only),
            _ => None,
        }
    }

    fn number_of(&mut self, set: Vec<Obligations>) -> Result<u32, AllocError> {
        let mut set = set;
        set.sort_unstable();
        let (number, _is_new) = self.sets.insert_full(set)?;
        Ok(u32::try_from(number).unwrap_or(NOTHING))
    }
}

/// Inserts a set, unless one within it is there; those that it is within go.
fn insert_least(set: &mut Vec<Obligations>, obligations: Obligations) -> Result<(), AllocError> {
    for other in set.as_slice() {
        if other.is_within(obligations) {
            return Ok(());
        }
    }
    set.retain(|other| !obligations.is_within(*other));
    set.push(obligations)?;
    Ok(())
}
