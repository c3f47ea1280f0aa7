//! The smallest net of a machine that is found by some code.

use crate::columns::problem_of;
use crate::drawing::{code_bits, likely_codes};
use crate::tables::Table;
use gate_search::{Work, decomposed_net, improved, net_of_products};
use signal_nets::{Net, Problem};
use std::alloc::{AllocError, Global};
use time_limits::Deadline;

/// What draws begin with.
const SEED: u64 = 7;

/// How a first net is made.
#[derive(Clone, Copy)]
enum Start {
    Decomposition,
    Products,
}

/// The smallest net of a machine that is found by some code, within so many steps of about a nanosecond. The known code is one of those that
/// are looked at. No gate below an output of a Moore machine uses an input. None where the steps are too few for any net. Once the time is
/// over, which is asked before each net, it is the smallest that was found by then.
pub fn small_net<D: Deadline>(
    alloc: Global,
    table: &Table,
    known: &[u32],
    is_moore: bool,
    steps: u64,
    deadline: &D,
) -> Result<Option<Net>, AllocError> {
    let mut for_codes = Work::new(steps / 4, SEED);
    let codes = likely_codes(alloc, table, known, &mut for_codes)?;
    let bits = code_bits(table.states);
    let for_each = steps / (codes.len().max(1) as u64).saturating_mul(2);
    let mut best = None;
    for code in &codes {
        let problem = problem_of(alloc, table, code, bits, is_moore)?;
        for start in [Start::Decomposition, Start::Products] {
            if deadline.is_over() {
                return Ok(best);
            }
            let net = net_from(alloc, &problem, start, for_each)?;
            if is_smaller(&net, &best) {
                best = net;
            }
        }
    }
    Ok(best)
}

fn net_from(
    alloc: Global,
    problem: &Problem,
    start: Start,
    steps: u64,
) -> Result<Option<Net>, AllocError> {
    let mut work = Work::new(steps, SEED);
    let net = match start {
        Start::Decomposition => decomposed_net(alloc, problem, &mut work)?,
        Start::Products => net_of_products(alloc, problem, &mut work)?,
    };
    match net {
        Some(net) => Ok(Some(improved(net, problem, &mut work)?)),
        None => Ok(None),
    }
}

/// Whether a net has fewer gates than another.
fn is_smaller(net: &Option<Net>, than: &Option<Net>) -> bool {
    match (net, than) {
        (Some(net), Some(than)) => net.gates() < than.gates(),
        (Some(_), None) => true,
        (None, _) => false,
    }
}
