//! Passes over a net until it gets no smaller.

use crate::substitution::{Aim, pass};
use crate::work::Work;
use signal_nets::{Net, Problem};
use std::alloc::AllocError;

/// There are no more passes.
const MOST_PASSES: usize = 1000;

/// Passes end once so many in a row brought nothing.
const MOST_IDLE: usize = 4;

/// A net of at most as many gates for the same problem, as long as there is work left.
pub fn improved(net: Net, problem: &Problem, work: &mut Work) -> Result<Net, AllocError> {
    let smaller = repeated(net, problem, Aim::Smaller, 1, work)?;
    repeated(smaller, problem, Aim::NotLarger, MOST_IDLE, work)
}

/// Passes until so many in a row brought nothing.
fn repeated(
    net: Net,
    problem: &Problem,
    aim: Aim,
    most_idle: usize,
    work: &mut Work,
) -> Result<Net, AllocError> {
    let mut net = net;
    let mut idle = 0usize;
    for _ in 0..MOST_PASSES {
        if idle >= most_idle || work.is_over() {
            break;
        }
        let before = net.gates();
        net = pass(net, problem, aim, work)?;
        idle = if net.gates() < before {
            0
        } else {
            idle.saturating_add(1)
        };
    }
    Ok(net)
}
