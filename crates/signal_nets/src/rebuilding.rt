//! Nets made anew from their targets, so that what isn't used and what has become equal goes.

use crate::nets::{Net, literal_of, node_of};
use std::alloc::{AllocError, Global};

/// A literal in the place of a node.
#[derive(Clone, Copy)]
pub struct Change {
    pub node: usize,
    pub literal: u32,
}

/// A walk in depth through a net, and the literals that its nodes have in the new one.
#[derive(Drop)]
struct Walk {
    change: Option<Change>,
    stack: Vec<Visit>,
    literals: Vec<Option<u32>>,
}

/// A step of the walk: to a node, or away from it.
#[derive(Clone, Copy)]
enum Visit {
    Of(usize),
    Behind(usize),
}

/// A net is made anew at most so many times in one go.
const MOST_TIMES: usize = 5;

impl Net {
    /// The net with a literal in the place of a node, and without what isn't used then. The gates of each target stand behind those of the
    /// targets before it.
    pub fn changed(&self, change: Change) -> Result<Net, AllocError> {
        self.rebuilt(Some(change))?.cleaned()
    }

    /// The net without what isn't used.
    pub fn cleaned(self) -> Result<Net, AllocError> {
        let mut net = self;
        for _ in 0..MOST_TIMES {
            if net.used_gates()? == net.gates() {
                break;
            }
            net = net.rebuilt(None)?;
        }
        Ok(net)
    }

    fn rebuilt(&self, change: Option<Change>) -> Result<Net, AllocError> {
        let mut net = self.without_gates()?;
        let mut walk = Walk {
            change,
            stack: Vec::new(self.allocator()),
            literals: self.leaf_literals(self.allocator())?,
        };
        for target in &self.targets {
            walk.stack.push(Visit::Of(node_of(*target)))?;
            walk.go(self, &mut net)?;
            let literal = walk.literal(*target);
            net.targets.push(literal)?;
        }
        Ok(net)
    }

    fn leaf_literals(&self, alloc: Global) -> Result<Vec<Option<u32>>, AllocError> {
        let mut literals = Vec::new(alloc);
        for node in 0..self.nodes() {
            if node < self.leaves() {
                literals.push(Some(literal_of(node, false)))?;
            } else {
                literals.push(None)?;
            }
        }
        Ok(literals)
    }

    /// The number of gates of which targets are made.
    fn used_gates(&self) -> Result<usize, AllocError> {
        let alloc = self.allocator();
        let mut is_met = vec![in alloc; false; self.nodes()]?;
        for target in &self.targets {
            meet(&mut is_met, *target);
        }
        let mut count = 0usize;
        for node in (self.leaves()..self.nodes()).rev() {
            if is_met.get(node).copied().unwrap_or(false)
                && let Some(operands) = self.operands(node)
            {
                count = count.saturating_add(1);
                meet(&mut is_met, operands.left);
                meet(&mut is_met, operands.right);
            }
        }
        Ok(count)
    }
}

fn meet(is_met: &mut [bool], literal: u32) {
    if let Some(mark) = is_met.get_mut(node_of(literal)) {
        *mark = true;
    }
}

impl Walk {
    /// Goes on until nothing is left to do.
    fn go(&mut self, old: &Net, net: &mut Net) -> Result<(), AllocError> {
        for _ in 0..u64::MAX {
            match self.stack.pop() {
                Some(Visit::Of(node)) => self.enter(old, node)?,
                Some(Visit::Behind(node)) => self.leave(old, net, node)?,
                None => break,
            }
        }
        Ok(())
    }

    fn enter(&mut self, old: &Net, node: usize) -> Result<(), AllocError> {
        if self
            .literals
            .get(node)
            .copied()
            .unwrap_or(Some(0))
            .is_some()
        {
            return Ok(());
        }
        self.stack.push(Visit::Behind(node))?;
        if let Some(literal) = self.instead(node) {
            self.stack.push(Visit::Of(node_of(literal)))?;
        } else if let Some(operands) = old.operands(node) {
            self.stack.push(Visit::Of(node_of(operands.right)))?;
            self.stack.push(Visit::Of(node_of(operands.left)))?;
        }
        Ok(())
    }

    fn leave(&mut self, old: &Net, net: &mut Net, node: usize) -> Result<(), AllocError> {
        let literal = if let Some(literal) = self.instead(node) {
            self.literal(literal)
        } else if let Some(operands) = old.operands(node) {
            net.and(self.literal(operands.left), self.literal(operands.right))?
        } else {
            0
        };
        if let Some(place) = self.literals.get_mut(node) {
            *place = Some(literal);
        }
        Ok(())
    }

    /// The literal in the place of a node.
    fn instead(&self, node: usize) -> Option<u32> {
        match self.change {
            Some(change) if change.node == node => Some(change.literal),
            _ => None,
        }
    }

    /// The new literal of an old one.
    fn literal(&self, literal: u32) -> u32 {
        let own = self.literals.get(node_of(literal)).copied();
        own.unwrap_or(None).unwrap_or(0) ^ (literal % 2)
    }
}
