//! Graphs of numbered nodes, and their strongly connected components (Tarjan's algorithm).

use crate::tables::{at, put};
use std::alloc::{AllocError, Global};

/// A way from one node to another.
#[derive(Clone, Copy)]
pub struct Link {
    pub from: u32,
    pub to: u32,
}

/// For each node those that a link leads to.
#[derive(Drop)]
pub struct Graph {
    /// Where the ends of each node begin; one place more than there are nodes.
    begins: Vec<usize>,
    ends: Vec<u32>,
}

impl Graph {
    /// The graph of so many nodes with these links, which are sorted by their source.
    pub fn new(alloc: Global, nodes: usize, links: &[Link]) -> Result<Graph, AllocError> {
        let mut begins = Vec::new(alloc);
        let mut ends = Vec::new(alloc);
        for link in links {
            for _ in begins.len()..(link.from as usize).saturating_add(1) {
                begins.push(ends.len())?;
            }
            ends.push(link.to)?;
        }
        for _ in begins.len()..nodes.saturating_add(1) {
            begins.push(ends.len())?;
        }
        Ok(Graph { begins, ends })
    }

    fn begin(&self, node: u32) -> usize {
        self.begins
            .get(node as usize)
            .copied()
            .unwrap_or(self.ends.len())
    }

    /// The end of a link of a node at this place, which is counted over all nodes.
    fn end_at(&self, node: u32, place: usize) -> Option<u32> {
        if place < self.begin(node.saturating_add(1)) {
            self.ends.get(place).copied()
        } else {
            None
        }
    }

    /// For each node the number of its component. No link leads to a component of a greater number.
    pub fn components(&self, alloc: Global) -> Result<Vec<u32>, AllocError> {
        let nodes = self.begins.len().saturating_sub(1);
        let mut walk = Walk::new(alloc, nodes)?;
        for (root, _) in (0u32..u32::MAX).zip(0..nodes) {
            if at(&walk.met, root) == UNKNOWN {
                walk.enter(self, root)?;
                walk.finish(self)?;
            }
        }
        Ok(walk.component)
    }
}

const UNKNOWN: u32 = u32::MAX;

/// A walk in depth through a graph.
#[derive(Drop)]
struct Walk {
    /// When each node was met.
    met: Vec<u32>,
    /// The earliest node that is known to be reached from each node and to be in its component.
    low: Vec<u32>,
    component: Vec<u32>,
    /// The nodes that have no component yet.
    open: Vec<u32>,
    /// The nodes on the way from the root, each with the place of its next link.
    path: Vec<(u32, usize)>,
    time: u32,
    components: u32,
}

impl Walk {
    fn new(alloc: Global, nodes: usize) -> Result<Walk, AllocError> {
        Ok(Walk {
            met: vec![in alloc; UNKNOWN; nodes]?,
            low: vec![in alloc; 0; nodes]?,
            component: vec![in alloc; UNKNOWN; nodes]?,
            open: Vec::new(alloc),
            path: Vec::new(alloc),
            time: 0,
            components: 0,
        })
    }

    fn enter(&mut self, graph: &Graph, node: u32) -> Result<(), AllocError> {
        put(&mut self.met, node, self.time);
        put(&mut self.low, node, self.time);
        self.time = self.time.saturating_add(1);
        self.open.push(node)?;
        self.path.push((node, graph.begin(node)))?;
        Ok(())
    }

    /// Walks on until the path is empty.
    fn finish(&mut self, graph: &Graph) -> Result<(), AllocError> {
        for _ in 0..u64::MAX {
            let Some((node, place)) = self.path.pop() else {
                break;
            };
            match graph.end_at(node, place) {
                None => self.leave(node),
                Some(next) => {
                    self.path.push((node, place.saturating_add(1)))?;
                    self.meet(graph, node, next)?;
                }
            }
        }
        Ok(())
    }

    /// Goes along a link.
    fn meet(&mut self, graph: &Graph, node: u32, next: u32) -> Result<(), AllocError> {
        if at(&self.met, next) == UNKNOWN {
            return self.enter(graph, next);
        }
        if at(&self.component, next) == UNKNOWN {
            let low = at(&self.low, node).min(at(&self.met, next));
            put(&mut self.low, node, low);
        }
        Ok(())
    }

    /// Leaves a node whose links are done.
    fn leave(&mut self, node: u32) {
        let low = at(&self.low, node);
        if low == at(&self.met, node) {
            self.close(node);
        }
        if let Some((before, _)) = self.path.last().copied() {
            let least = at(&self.low, before).min(low);
            put(&mut self.low, before, least);
        }
    }

    /// Gives the open nodes down to this one a component.
    fn close(&mut self, node: u32) {
        for _ in 0..self.open.len() {
            let Some(member) = self.open.pop() else {
                break;
            };
            put(&mut self.component, member, self.components);
            if member == node {
                break;
            }
        }
        self.components = self.components.saturating_add(1);
    }
}
