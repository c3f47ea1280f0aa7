//! How many ways there are to meet a formula at one position.

use crate::silence::Silence;
use ltl_formula::{FormulaId, Formulas, Node};
use std::alloc::{AllocError, Global};

/// The most ways to meet a formula whose automaton is looked at: the covers of a state are compared with each other.
const MOST_LEAVES: u64 = 10_000;

/// Refuses a formula in normal form whose automaton takes long before its first edge is there.
pub(crate) fn has_few_leaves(
    alloc: Global,
    formulas: &Formulas,
    form: FormulaId,
) -> Result<(), Silence> {
    let leaves = leaves_of_all(alloc, formulas)?;
    match leaves.get(form.0 as usize) {
        Some(count) if *count <= MOST_LEAVES => Ok(()),
        _ => Err(Silence::Unknown),
    }
}

/// For each formula of a list about how many ways there are to meet it. Parts stand before wholes.
fn leaves_of_all(alloc: Global, formulas: &Formulas) -> Result<Vec<u64>, AllocError> {
    let mut leaves = Vec::new(alloc);
    for place in 0..formulas.len() {
        let node = formulas.node(FormulaId(place as u32));
        let count = leaves_of(node, &leaves);
        leaves.push(count)?;
    }
    Ok(leaves)
}

/// The ways to meet a node now, or to put it off where it may be.
fn leaves_of(node: Node, leaves: &[u64]) -> u64 {
    let of = |part: FormulaId| leaves.get(part.0 as usize).copied().unwrap_or(0);
    match node {
        Node::False => 0,
        Node::And(a, b) => of(a).saturating_mul(of(b)),
        Node::Or(a, b) | Node::Until(a, b) => of(a).saturating_add(of(b)),
        Node::Release(a, b) => of(b).saturating_mul(of(a).saturating_add(1)),
        _ => 1,
    }
}
