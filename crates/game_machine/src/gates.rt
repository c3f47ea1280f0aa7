//! And-gates over literals of AIGER, each made once.

use indexmap::IndexSet;
use std::alloc::{AllocError, Global};

/// The operands of a gate, the greater literal first.
#[derive(Clone, Copy, PartialEq, Eq, Hash, Drop)]
pub(crate) struct Operands {
    pub(crate) greater: u32,
    pub(crate) lesser: u32,
}

/// Gates behind so many variables.
#[derive(Drop)]
pub(crate) struct Gates {
    first: u32,
    pub(crate) operands: IndexSet<Operands>,
}

/// The literal of the opposite value.
fn opposite(literal: u32) -> u32 {
    literal ^ 1
}

impl Gates {
    /// No gates; the first will have this variable.
    pub(crate) fn new(alloc: Global, first: u32) -> Gates {
        Gates {
            first,
            operands: IndexSet::new(alloc),
        }
    }

    /// Both literals.
    fn and(&mut self, one: u32, other: u32) -> Result<u32, AllocError> {
        if one == 0 || other == 0 || one == opposite(other) {
            return Ok(0);
        }
        if one == 1 || one == other {
            return Ok(other);
        }
        if other == 1 {
            return Ok(one);
        }
        let (place, _) = self.operands.insert_full(Operands {
            greater: one.max(other),
            lesser: one.min(other),
        })?;
        let variable = self
            .first
            .saturating_add(u32::try_from(place).unwrap_or(u32::MAX));
        Ok(variable.saturating_mul(2))
    }

    fn or(&mut self, one: u32, other: u32) -> Result<u32, AllocError> {
        Ok(opposite(self.and(opposite(one), opposite(other))?))
    }

    /// One literal where the condition is set, else the other.
    pub(crate) fn choice(
        &mut self,
        condition: u32,
        then: u32,
        otherwise: u32,
    ) -> Result<u32, AllocError> {
        if then == otherwise {
            return Ok(then);
        }
        if then == 1 || then == condition {
            return self.or(condition, otherwise);
        }
        if otherwise == 1 || otherwise == opposite(condition) {
            return self.or(opposite(condition), then);
        }
        let one = self.and(condition, then)?;
        let other = self.and(opposite(condition), otherwise)?;
        self.or(one, other)
    }
}
