//! A node made of other nodes, where no target sees the difference.

use crate::decomposition::survey_steps;
use crate::finding::Divisors;
use crate::surroundings::{Cone, Flipped, forbidden};
use crate::wanted::Wanted;
use crate::work::Work;
use signal_nets::{Change, Net, Problem, Signal, literal_of, part};
use std::alloc::AllocError;

/// A node is made of at most so many new gates.
const MOST_GATES: u32 = 2;

/// A node may be made of so many other nodes.
const MOST_DIVISORS: usize = 400;

/// For each node there are so many looks at other nodes and at pairs of them.
const MOST_LOOKS: usize = 2000;

/// Which nets are taken in the place of another.
#[derive(Clone, Copy)]
pub(crate) enum Aim {
    Smaller,
    /// Also nets of the same size, by draws.
    NotLarger,
}

/// Tries to make each gate of other nodes, from the last one on.
pub(crate) fn pass(
    net: Net,
    problem: &Problem,
    aim: Aim,
    work: &mut Work,
) -> Result<Net, AllocError> {
    let mut net = net;
    let mut left = net.nodes();
    for _ in 0..net.nodes() {
        left = left.min(net.nodes());
        if left <= net.leaves() || work.is_over() {
            break;
        }
        left -= 1;
        if let Some(other) = without_node(&mut net, problem, left, aim, work)? {
            net = other;
        }
    }
    Ok(net)
}

/// The net where a gate is made of other nodes, if it is one that the aim takes.
fn without_node(
    net: &mut Net,
    problem: &Problem,
    node: usize,
    aim: Aim,
    work: &mut Work,
) -> Result<Option<Net>, AllocError> {
    let nodes = net.nodes();
    let Some(literal) = other_literal(net, problem, node, aim, work)? else {
        net.cut(nodes);
        return Ok(None);
    };
    let other = net.changed(Change { node, literal })?;
    net.cut(nodes);
    work.spend(nodes.saturating_mul(problem.width.saturating_add(100)));
    let is_taken = match aim {
        Aim::Smaller => other.gates() < net.gates(),
        Aim::NotLarger => other.gates() <= net.gates(),
    };
    Ok(if is_taken { Some(other) } else { None })
}

/// A literal of other nodes in the place of a node, where no target sees the difference.
fn other_literal(
    net: &mut Net,
    problem: &Problem,
    node: usize,
    aim: Aim,
    work: &mut Work,
) -> Result<Option<u32>, AllocError> {
    let cone = Cone::of(net, node)?;
    let flipped = Flipped::of(net, node)?;
    let wanted = wanted_of(net, problem, &flipped, node)?;
    let mut divisors = divisors_of(net, problem, node, &cone, &flipped)?;
    work.spend(survey_steps(net.nodes(), problem.width).saturating_mul(2));
    let spared = match aim {
        Aim::Smaller => cone.gates.saturating_sub(1),
        Aim::NotLarger => {
            work.shuffle(&mut divisors.nodes);
            cone.gates
        }
    };
    divisors.nodes.truncate(MOST_DIVISORS);
    let found = divisors.literal(net, &wanted, spared.min(MOST_GATES))?;
    work.spend(divisors.steps);
    Ok(found)
}

/// What a node has to be on the columns on which a target sees it.
fn wanted_of(
    net: &Net,
    problem: &Problem,
    flipped: &Flipped,
    node: usize,
) -> Result<Wanted, AllocError> {
    let alloc = net.allocator();
    let care = flipped.care(net, problem.width)?;
    Ok(Wanted {
        on: part(alloc, &care, Signal::new(net.columns(node), false))?,
        off: part(alloc, &care, net.signal(literal_of(node, true)))?,
    })
}

/// The nodes that aren't made of a node, aren't needed by it alone, and may be used for it.
fn divisors_of(
    net: &Net,
    problem: &Problem,
    node: usize,
    cone: &Cone,
    flipped: &Flipped,
) -> Result<Divisors, AllocError> {
    let forbidden = forbidden(net, problem, node)?;
    let mut nodes = Vec::new(net.allocator());
    for (other, is_forbidden) in forbidden.iter().enumerate().skip(1) {
        if !*is_forbidden && !cone.has(other) && !flipped.has(other) {
            nodes.push(other)?;
        }
    }
    Ok(Divisors {
        nodes,
        width: problem.width,
        looks: MOST_LOOKS,
        steps: 0,
    })
}
