//! And-gates over literals as in AIGER: node `n` has the literals `2 * n` and `2 * n + 1`, and node 0 is false.

use crate::columns::{Signal, hash_of, opposed};
use crate::problems::Problem;
use std::alloc::{AllocError, Global};
use std::collections::HashMap;

/// The operands of a gate.
#[derive(Clone, Copy)]
pub struct Operands {
    pub left: u32,
    pub right: u32,
}

/// Gates behind leaves, each behind those that it uses, with the columns on which each node is set.
#[derive(Drop)]
pub struct Net {
    alloc: Global,
    /// The nodes that are no gates: false, then the problem's leaves.
    leaves: usize,
    operands: Vec<Operands>,
    columns: Vec<Vec<u64>>,
    /// A node by the hash of its columns.
    known: HashMap<u64, u32>,
    /// What the problem asks for, in its order.
    pub targets: Vec<u32>,
}

/// The literal of the opposite value.
pub fn opposite(literal: u32) -> u32 {
    literal ^ 1
}

pub fn node_of(literal: u32) -> usize {
    (literal / 2) as usize
}

/// The literal of a node, or its opposite.
pub fn literal_of(node: usize, is_opposite: bool) -> u32 {
    let node = u32::try_from(node).unwrap_or(u32::MAX / 2);
    node.saturating_mul(2) | u32::from(is_opposite)
}

impl Net {
    /// The leaves alone, without targets.
    pub fn new(alloc: Global, problem: &Problem) -> Result<Net, AllocError> {
        let mut net = Net::empty(alloc, problem.leaves.len().saturating_add(1));
        net.put_node(vec![in alloc; 0u64; problem.width]?, true)?;
        for leaf in &problem.leaves {
            net.put_node(Vec::from_slice(alloc, leaf)?, true)?;
        }
        Ok(net)
    }

    /// The leaves of another net, without targets.
    pub(crate) fn without_gates(&self) -> Result<Net, AllocError> {
        let mut net = Net::empty(self.alloc, self.leaves);
        for columns in self.columns.iter().take(self.leaves) {
            net.put_node(Vec::from_slice(self.alloc, columns)?, true)?;
        }
        Ok(net)
    }

    fn empty(alloc: Global, leaves: usize) -> Net {
        Net {
            alloc,
            leaves,
            operands: Vec::new(alloc),
            columns: Vec::new(alloc),
            known: HashMap::new(alloc),
            targets: Vec::new(alloc),
        }
    }

    pub fn allocator(&self) -> Global {
        self.alloc
    }

    pub fn leaves(&self) -> usize {
        self.leaves
    }

    /// The number of all nodes.
    pub fn nodes(&self) -> usize {
        self.columns.len()
    }

    pub fn gates(&self) -> usize {
        self.operands.len()
    }

    /// The operands of a node; None where it is no gate.
    pub fn operands(&self, node: usize) -> Option<Operands> {
        let place = node.checked_sub(self.leaves)?;
        self.operands.get(place).copied()
    }

    /// The columns on which a node is set.
    pub fn columns(&self, node: usize) -> &[u64] {
        match self.columns.get(node) {
            Some(columns) => columns.as_slice(),
            None => &[],
        }
    }

    pub fn signal(&self, literal: u32) -> Signal<'_> {
        Signal::new(self.columns(node_of(literal)), literal % 2 == 1)
    }

    /// Both literals.
    pub fn and(&mut self, one: u32, other: u32) -> Result<u32, AllocError> {
        if let Some(literal) = simple_and(one, other) {
            return Ok(literal);
        }
        let columns = self.signal(one).and(self.alloc, self.signal(other))?;
        match self.known_literal(&columns) {
            Some(literal) => Ok(literal),
            None => self.put_gate(one, other, columns, true),
        }
    }

    pub fn or(&mut self, one: u32, other: u32) -> Result<u32, AllocError> {
        Ok(opposite(self.and(opposite(one), opposite(other))?))
    }

    /// One literal where the condition is set, else the other.
    pub fn choice(&mut self, condition: u32, then: u32, otherwise: u32) -> Result<u32, AllocError> {
        if then == otherwise {
            return Ok(then);
        }
        let one = self.and(condition, then)?;
        let two = self.and(opposite(condition), otherwise)?;
        self.or(one, two)
    }

    /// Both literals, without a look for an equal node. `cut` takes such gates away again.
    pub fn and_anew(&mut self, one: u32, other: u32) -> Result<u32, AllocError> {
        if let Some(literal) = simple_and(one, other) {
            return Ok(literal);
        }
        let columns = self.signal(one).and(self.alloc, self.signal(other))?;
        self.put_gate(one, other, columns, false)
    }

    /// Leaves only the first nodes, where those behind were made by `and_anew`.
    pub fn cut(&mut self, nodes: usize) {
        self.columns.truncate(nodes);
        self.operands.truncate(nodes.saturating_sub(self.leaves));
    }

    /// The literal that is set on just these columns.
    fn known_literal(&self, columns: &[u64]) -> Option<u32> {
        let node = self.known.get(&hash_of(columns)).copied()? as usize;
        let is_opposite = opposed(self.columns(node), columns)?;
        Some(literal_of(node, is_opposite))
    }

    fn put_gate(
        &mut self,
        left: u32,
        right: u32,
        columns: Vec<u64>,
        is_known: bool,
    ) -> Result<u32, AllocError> {
        self.operands.push(Operands { left, right })?;
        self.put_node(columns, is_known)
    }

    fn put_node(&mut self, columns: Vec<u64>, is_known: bool) -> Result<u32, AllocError> {
        let node = self.columns.len();
        if is_known {
            let hash = hash_of(&columns);
            if self.known.get(&hash).is_none() {
                self.known.insert(hash, u32::try_from(node).unwrap_or(0))?;
            }
        }
        self.columns.push(columns)?;
        Ok(literal_of(node, false))
    }
}

/// Both literals, where that is a constant or one of them.
fn simple_and(one: u32, other: u32) -> Option<u32> {
    if one == 0 || other == 0 || one == opposite(other) {
        return Some(0);
    }
    if one == 1 || one == other {
        return Some(other);
    }
    if other == 1 { Some(one) } else { None }
}
