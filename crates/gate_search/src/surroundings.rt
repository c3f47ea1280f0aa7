//! What is around a node: the gates that only it needs, the nodes that are made of it, and the columns on which a target sees it.

use signal_nets::{Net, Operands, Problem, Signal, node_of};
use std::alloc::{AllocError, Global};

/// The gates that go if a node goes.
#[derive(Drop)]
pub(crate) struct Cone {
    is_in: Vec<bool>,
    pub(crate) gates: u32,
}

/// The columns of the nodes that are made of a node, itself among them, if it were the opposite; others have none.
#[derive(Drop)]
pub(crate) struct Flipped {
    columns: Vec<Vec<u64>>,
}

impl Cone {
    pub(crate) fn of(net: &Net, node: usize) -> Result<Cone, AllocError> {
        let alloc = net.allocator();
        let mut uses = uses_of(net)?;
        let mut cone = Cone {
            is_in: vec![in alloc; false; net.nodes()]?,
            gates: 0,
        };
        let mut stack = vec![in alloc; node]?;
        for _ in 0..net.nodes() {
            let Some(node) = stack.pop() else {
                break;
            };
            cone.put(node);
            let Some(operands) = net.operands(node) else {
                continue;
            };
            for operand in [node_of(operands.left), node_of(operands.right)] {
                if net.operands(operand).is_some() && is_last_use(&mut uses, operand) {
                    stack.push(operand)?;
                }
            }
        }
        Ok(cone)
    }

    fn put(&mut self, node: usize) {
        if let Some(mark) = self.is_in.get_mut(node) {
            *mark = true;
            self.gates = self.gates.saturating_add(1);
        }
    }

    pub(crate) fn has(&self, node: usize) -> bool {
        self.is_in.get(node).copied().unwrap_or(false)
    }
}

/// For each node, how many gates and targets use it.
fn uses_of(net: &Net) -> Result<Vec<u32>, AllocError> {
    let alloc = net.allocator();
    let mut uses = vec![in alloc; 0u32; net.nodes()]?;
    for node in net.leaves()..net.nodes() {
        if let Some(operands) = net.operands(node) {
            count_use(&mut uses, operands.left);
            count_use(&mut uses, operands.right);
        }
    }
    for target in &net.targets {
        count_use(&mut uses, *target);
    }
    Ok(uses)
}

fn count_use(uses: &mut [u32], literal: u32) {
    if let Some(count) = uses.get_mut(node_of(literal)) {
        *count = count.saturating_add(1);
    }
}

/// Takes a use off a node. Whether it was the last.
fn is_last_use(uses: &mut [u32], node: usize) -> bool {
    match uses.get_mut(node) {
        Some(count) if *count > 0 => {
            *count -= 1;
            *count == 0
        }
        _ => false,
    }
}

impl Flipped {
    pub(crate) fn of(net: &Net, node: usize) -> Result<Flipped, AllocError> {
        let alloc = net.allocator();
        let mut flipped = Flipped {
            columns: Vec::with_capacity(alloc, net.nodes())?,
        };
        for _ in 0..node {
            flipped.columns.push(Vec::new(alloc))?;
        }
        flipped.columns.push(opposites(alloc, net.columns(node))?)?;
        for above in node.saturating_add(1)..net.nodes() {
            let columns = match net.operands(above) {
                Some(operands) => flipped.gate(net, operands)?,
                None => Vec::new(alloc),
            };
            flipped.columns.push(columns)?;
        }
        Ok(flipped)
    }

    pub(crate) fn has(&self, node: usize) -> bool {
        !self.own(node).is_empty()
    }

    fn own(&self, node: usize) -> &[u64] {
        match self.columns.get(node) {
            Some(columns) => columns.as_slice(),
            None => &[],
        }
    }

    /// The columns of a gate; none where it isn't made of the node.
    fn gate(&self, net: &Net, operands: Operands) -> Result<Vec<u64>, AllocError> {
        if self.has(node_of(operands.left)) || self.has(node_of(operands.right)) {
            let left = self.signal(net, operands.left);
            left.and(net.allocator(), self.signal(net, operands.right))
        } else {
            Ok(Vec::new(net.allocator()))
        }
    }

    fn signal<'a>(&'a self, net: &'a Net, literal: u32) -> Signal<'a> {
        let node = node_of(literal);
        if self.has(node) {
            Signal::new(self.own(node), literal % 2 == 1)
        } else {
            net.signal(literal)
        }
    }

    /// The columns on which some target changes with the node.
    pub(crate) fn care(&self, net: &Net, width: usize) -> Result<Vec<u64>, AllocError> {
        let alloc = net.allocator();
        let mut care = vec![in alloc; 0u64; width]?;
        for target in &net.targets {
            let node = node_of(*target);
            let both = self.own(node).iter().zip(net.columns(node));
            for (place, (one, other)) in care.iter_mut().zip(both) {
                *place |= *one ^ *other;
            }
        }
        Ok(care)
    }
}

fn opposites(alloc: Global, columns: &[u64]) -> Result<Vec<u64>, AllocError> {
    let mut opposites = Vec::with_capacity(alloc, columns.len())?;
    for word in columns {
        opposites.push(!*word)?;
    }
    Ok(opposites)
}

/// For each node whether it may not be used for this one: where this one is below an output of a Moore machine, those that use an input.
pub(crate) fn forbidden(
    net: &Net,
    problem: &Problem,
    node: usize,
) -> Result<Vec<bool>, AllocError> {
    let alloc = net.allocator();
    let mut marks = vec![in alloc; false; net.nodes()]?;
    if !problem.is_moore || !is_below_output(net, problem.outputs, node)? {
        return Ok(marks);
    }
    for leaf in 1..problem.first_node(0) {
        put(&mut marks, leaf);
    }
    for above in net.leaves()..net.nodes() {
        if net.operands(above).is_some_and(|gate| uses(&marks, gate)) {
            put(&mut marks, above);
        }
    }
    Ok(marks)
}

/// Whether an output is made of a node.
fn is_below_output(net: &Net, outputs: usize, node: usize) -> Result<bool, AllocError> {
    let alloc = net.allocator();
    let mut marks = vec![in alloc; false; net.nodes()]?;
    put(&mut marks, node);
    for above in node.saturating_add(1)..net.nodes() {
        if net.operands(above).is_some_and(|gate| uses(&marks, gate)) {
            put(&mut marks, above);
        }
    }
    Ok(
        net.targets
            .iter()
            .take(outputs)
            .any(|target| is_marked(&marks, *target)),
    )
}

fn uses(marks: &[bool], gate: Operands) -> bool {
    is_marked(marks, gate.left) || is_marked(marks, gate.right)
}

fn is_marked(marks: &[bool], literal: u32) -> bool {
    marks.get(node_of(literal)).copied().unwrap_or(false)
}

fn put(marks: &mut [bool], node: usize) {
    if let Some(mark) = marks.get_mut(node) {
        *mark = true;
    }
}
