//! And-gates over literals as in AIGER: 0 is false, 1 is true, and an odd literal is the opposite of the one before it.

use decision_diagrams::DiagramFault;
use indexmap::IndexSet;
use std::alloc::{AllocError, Global};

/// The operands of a gate, whose literals are smaller than its own. The left one is the smaller one.
#[derive(Clone, Copy, Debug, PartialEq, Eq, Hash)]
pub struct Gate {
    pub left: u32,
    pub right: u32,
}

/// Gates, each once. Those of the place `n` has the literal `first + 2 * n`.
#[derive(Drop)]
pub struct Gates {
    alloc: Global,
    first: u32,
    gates: IndexSet<Gate>,
}

impl Gates {
    /// No gates yet. The first one has this literal, an even one above those of all inputs.
    pub fn new(alloc: Global, first: u32) -> Gates {
        Gates {
            alloc,
            first,
            gates: IndexSet::new(alloc),
        }
    }

    pub fn allocator(&self) -> Global {
        self.alloc
    }

    pub fn len(&self) -> usize {
        self.gates.len()
    }

    pub fn is_empty(&self) -> bool {
        self.gates.is_empty()
    }

    /// The gates in the order of their literals.
    pub fn list(&self) -> Result<Vec<Gate>, AllocError> {
        let mut list = Vec::new(self.alloc);
        for gate in &self.gates {
            list.push(*gate)?;
        }
        Ok(list)
    }

    /// Both literals. There is a fault where literals are used up.
    pub fn and(&mut self, one: u32, other: u32) -> Result<u32, DiagramFault> {
        let (left, right) = (one.min(other), one.max(other));
        if left == 0 || left ^ 1 == right {
            return Ok(0);
        }
        if left == 1 || left == right {
            return Ok(right);
        }
        let (place, _) = self.gates.insert_full(Gate { left, right })?;
        let place = u32::try_from(place).unwrap_or(u32::MAX);
        let literal = place.saturating_mul(2).saturating_add(self.first);
        if literal >= u32::MAX - 1 {
            return Err(DiagramFault::TooManyNodes);
        }
        Ok(literal)
    }

    pub fn or(&mut self, one: u32, other: u32) -> Result<u32, DiagramFault> {
        Ok(self.and(one ^ 1, other ^ 1)? ^ 1)
    }

    /// One literal where the condition is set, else the other.
    pub fn choice(
        &mut self,
        condition: u32,
        then: u32,
        otherwise: u32,
    ) -> Result<u32, DiagramFault> {
        if then == otherwise {
            return Ok(then);
        }
        let one = self.and(condition, then)?;
        let two = self.and(condition ^ 1, otherwise)?;
        self.or(one, two)
    }
}
