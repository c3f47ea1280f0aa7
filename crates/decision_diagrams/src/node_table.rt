//! The table of nodes, in which each node stands once.

use crate::functions::Function;
use std::alloc::{AllocError, Global};

/// What a function is where the variable of a level is set, and where it isn't. The low function is never complemented, so of a function and its
/// complement one has the node itself.
#[derive(Clone, Copy, PartialEq, Eq)]
pub(crate) struct Node {
    pub level: u32,
    pub high: Function,
    pub low: Function,
}

/// A node, and the one behind it in its chain or among those that are free.
#[derive(Clone, Copy)]
struct Slot {
    node: Node,
    next: u32,
}

/// The level behind all variables, which constants have.
pub(crate) const LAST_LEVEL: u32 = u32::MAX;

/// In the place of the number of a node where there is none: that of the constant, which stands in no chain.
const NONE: u32 = 0;

const CONSTANT: Node = Node {
    level: LAST_LEVEL,
    high: Function::FALSE,
    low: Function::FALSE,
};

/// Nodes by their numbers, from the constant's 0 on, and in chains by what they are.
#[derive(Drop)]
pub(crate) struct NodeTable {
    slots: Vec<Slot>,
    /// The first node of each chain.
    chains: Vec<u32>,
    /// The first of the nodes that are free.
    free: u32,
    /// How many nodes aren't free, without the constant.
    used: usize,
}

impl NodeTable {
    /// The constant alone, with so many chains, a power of two.
    pub fn new(alloc: Global, chains: usize) -> Result<NodeTable, AllocError> {
        let slot = Slot {
            node: CONSTANT,
            next: NONE,
        };
        Ok(NodeTable {
            slots: vec![in alloc; slot; 1]?,
            chains: vec![in alloc; NONE; chains]?,
            free: NONE,
            used: 0,
        })
    }

    /// How many nodes aren't free, without the constant.
    pub fn used(&self) -> usize {
        self.used
    }

    /// The numbers of nodes are below this one.
    pub fn numbers(&self) -> usize {
        self.slots.len()
    }

    pub fn chains(&self) -> usize {
        self.chains.len()
    }

    pub fn has_free(&self) -> bool {
        self.free != NONE
    }

    /// The node of a function, and the constant's where there is none.
    pub fn node(&self, function: Function) -> Node {
        match self.slots.get(function.node()) {
            Some(slot) => slot.node,
            None => CONSTANT,
        }
    }

    pub fn level(&self, function: Function) -> u32 {
        self.node(function).level
    }

    /// What a function is where the variable of a level is set, and where it isn't. The level is at most its own.
    pub fn halves(&self, function: Function, level: u32) -> (Function, Function) {
        let node = self.node(function);
        if node.level != level {
            return (function, function);
        }
        let is_complemented = function.is_complemented();
        (
            node.high.complemented_if(is_complemented),
            node.low.complemented_if(is_complemented),
        )
    }

    /// The function of a node that stands in the table.
    pub fn found(&self, node: Node) -> Option<Function> {
        let chain = self.chain_of(node);
        let mut next = self.chains.get(chain).copied().unwrap_or(NONE);
        for _ in 0..self.slots.len() {
            let slot = self.slots.get(next as usize)?;
            if next == NONE {
                return None;
            }
            if slot.node == node {
                return Some(Function::of_node(next));
            }
            next = slot.next;
        }
        None
    }

    /// Puts a node that doesn't stand in the table yet.
    pub fn put(&mut self, node: Node) -> Result<Function, AllocError> {
        let number = self.fresh(node)?;
        self.link(number, node);
        self.used = self.used.saturating_add(1);
        Ok(Function::of_node(number))
    }

    /// A node that is free, or a new one, with what it is.
    fn fresh(&mut self, node: Node) -> Result<u32, AllocError> {
        if let Some(slot) = self.slots.get_mut(self.free as usize)
            && self.free != NONE
        {
            let number = self.free;
            self.free = slot.next;
            slot.node = node;
            return Ok(number);
        }
        let number = u32::try_from(self.slots.len()).unwrap_or(NONE);
        self.slots.push(Slot { node, next: NONE })?;
        Ok(number)
    }

    /// Puts a node first into its chain.
    fn link(&mut self, number: u32, node: Node) {
        let chain = self.chain_of(node);
        if let Some(first) = self.chains.get_mut(chain)
            && let Some(slot) = self.slots.get_mut(number as usize)
        {
            slot.next = *first;
            *first = number;
        }
    }

    /// Makes room for so many nodes in all, and as many chains where that is twice as many.
    pub fn grow(&mut self, alloc: Global, room: usize) -> Result<(), AllocError> {
        self.slots
            .reserve_exact(room.saturating_sub(self.slots.len()))?;
        let doubled = self.chains.len().saturating_mul(2);
        if doubled <= room {
            self.chains = vec![in alloc; NONE; doubled]?;
            self.link_all();
        }
        Ok(())
    }

    /// Puts each node that isn't free into its chain, where chains are empty.
    fn link_all(&mut self) {
        for number in 1..self.slots.len() {
            if let Some(slot) = self.slots.get(number).copied()
                && slot.node.level != LAST_LEVEL
            {
                self.link(u32::try_from(number).unwrap_or(NONE), slot.node);
            }
        }
    }

    /// Frees each node whose number isn't marked.
    pub fn sweep(&mut self, is_marked: &[bool]) {
        self.chains.fill(NONE);
        self.free = NONE;
        self.used = 0;
        for number in (1..self.slots.len()).rev() {
            if is_marked.get(number).copied().unwrap_or(false) {
                self.used = self.used.saturating_add(1);
            } else if let Some(slot) = self.slots.get_mut(number) {
                slot.node = CONSTANT;
                slot.next = self.free;
                self.free = u32::try_from(number).unwrap_or(NONE);
            }
        }
        self.link_all();
    }

    /// The chain of a node; chains are a power of two.
    fn chain_of(&self, node: Node) -> usize {
        let high = u64::from(node.high.number());
        let low = u64::from(node.low.number());
        let mixed = (high ^ (low << 32)).wrapping_mul(0x9e37_79b9_7f4a_7c15);
        let hash = (mixed ^ u64::from(node.level)).wrapping_mul(0xd6e8_feb8_6659_fd93);
        (hash >> 32) as usize & self.chains.len().saturating_sub(1)
    }
}
