//! Positions with answers that stay among them.

use crate::search_state::{Answer, Node};
use game_arena::tables::{at, is_in, mark, put};
use game_moves::{Class, Game};
use std::alloc::{AllocError, Global};

/// A position of a win, with its classes and the answer to each.
#[derive(Drop)]
pub struct WinNode {
    pub position: u32,
    pub classes: Vec<Class>,
    pub answers: Vec<Answer>,
}

/// A win: nodes whose answers lead to nodes, from the start on.
#[derive(Drop)]
pub struct Win<'a> {
    pub game: Game<'a>,
    pub nodes: Vec<WinNode>,
    /// The node that the game begins at.
    pub start: u32,
    /// The bound on the number of marks.
    pub bound: u8,
    /// The steps that all games took.
    pub steps: u64,
}

impl<'a> Win<'a> {
    pub(crate) fn new(
        game: Game<'a>,
        nodes: Vec<Node>,
        bound: u8,
        steps: u64,
    ) -> Result<Win<'a>, AllocError> {
        let alloc = game.alloc;
        let mut own = Vec::new(alloc);
        for node in nodes {
            own.push(WinNode {
                position: node.position,
                classes: node.classes,
                answers: node.answers,
            })?;
        }
        let mut win = Win {
            game,
            nodes: own,
            start: 0,
            bound,
            steps,
        };
        win.compact()?;
        Ok(win)
    }

    fn alloc(&self) -> Global {
        self.game.alloc
    }

    /// The nodes that are reached from the start, in the order in which they are met.
    pub fn reached(&self) -> Result<Vec<u32>, AllocError> {
        let mut met = vec![in self.alloc(); false; self.nodes.len()]?;
        mark(&mut met, self.start);
        let mut order = vec![in self.alloc(); self.start]?;
        for place in 0..self.nodes.len() {
            let Some(number) = order.get(place).copied() else {
                break;
            };
            let Some(node) = self.nodes.get(number as usize) else {
                continue;
            };
            for answer in &node.answers {
                push_new(&mut order, &mut met, &answer.targets)?;
            }
        }
        Ok(order)
    }

    /// A node, which is empty from now on.
    fn take_node(&mut self, number: u32) -> WinNode {
        let mut taken = WinNode {
            position: 0,
            classes: Vec::new(self.alloc()),
            answers: Vec::new(self.alloc()),
        };
        if let Some(node) = self.nodes.get_mut(number as usize) {
            std::mem::swap(node, &mut taken);
        }
        taken
    }

    /// Lets nodes go that aren't reached, and numbers the others as they are met.
    pub fn compact(&mut self) -> Result<(), AllocError> {
        let alloc = self.alloc();
        let mut numbers = vec![in alloc; u32::MAX; self.nodes.len()]?;
        let order = self.reached()?;
        for (number, old) in (0u32..u32::MAX).zip(&order) {
            put(&mut numbers, *old, number);
        }
        let mut kept = Vec::with_capacity(alloc, order.len())?;
        for old in &order {
            let mut node = self.take_node(*old);
            renumber(&mut node, &numbers);
            kept.push(node)?;
        }
        self.nodes = kept;
        self.start = 0;
        Ok(())
    }
}

/// Adds the nodes that weren't met yet. They are from now on.
fn push_new(order: &mut Vec<u32>, met: &mut [bool], nodes: &[u32]) -> Result<(), AllocError> {
    for node in nodes {
        if !is_in(met, *node) {
            mark(met, *node);
            order.push(*node)?;
        }
    }
    Ok(())
}

fn renumber(node: &mut WinNode, numbers: &[u32]) {
    for answer in node.answers.iter_mut() {
        for target in answer.targets.iter_mut() {
            *target = at(numbers, *target);
        }
    }
}
