//! A circuit that is made small, and what comes of it.

use crate::headings::{Heading, Slip};
use crate::tests::{Verdict, compared};
use aiger_text::{Circuit, read_circuit};
use gate_search::{Work, decomposed_net, improved, net_of_products};
use letters_and_lassos::{Kind, Side};
use signal_nets::{Net, Problem};
use small_circuits::{Effort, circuit_of, reached_by, small_circuit};
use state_codes::{code_bits, problem_of};
use std::alloc::{AllocError, Global};
use time_limits::NoDeadline;

const STEPS: u64 = 100_000_000;

/// A heading, and what comes of its circuit.
pub(crate) fn push_row(
    alloc: Global,
    out: &mut Vec<u8>,
    heading: &[u8],
    text: &[u8],
) -> Result<(), AllocError> {
    out.extend_from_slice(heading)?;
    match read_circuit(alloc, text) {
        Ok(file) => push_small(alloc, out, Heading::of(heading), &file.circuit),
        Err(_) => out.extend_from_slice(b"no circuit\n"),
    }
}

fn push_small(
    alloc: Global,
    out: &mut Vec<u8>,
    heading: Heading,
    circuit: &Circuit,
) -> Result<(), AllocError> {
    let made = match heading.slip {
        Slip::None | Slip::Kind => {
            let effort = Effort { steps: STEPS };
            small_circuit(
                alloc,
                circuit,
                heading.side,
                heading.kind,
                effort,
                &NoDeadline,
            )?
        }
        slip => circuit_with(alloc, circuit, slip)?,
    };
    let Some(small) = made else {
        return out.extend_from_slice(b"none\n");
    };
    let is_moore = matches!(
        (heading.side, heading.kind),
        (Side::System, Kind::Moore) | (Side::Environment, Kind::Mealy)
    );
    let line = match compared(alloc, circuit, &small, is_moore)? {
        Verdict::Rejected => format!(in alloc; "rejected\n")?,
        Verdict::Passes(states) => {
            let gates = if small.gates.len() as u64 <= heading.gates {
                "few"
            } else {
                "many"
            };
            format!(in alloc; "passes, {states} states, {gates} gates\n")?
        }
    };
    out.extend_from_slice(line.as_bytes())
}

/// A circuit that is made layer by layer, where one of them is told a slip.
fn circuit_with(
    alloc: Global,
    circuit: &Circuit,
    slip: Slip,
) -> Result<Option<Circuit>, AllocError> {
    let Some(reached) = reached_by(alloc, circuit)? else {
        return Ok(None);
    };
    let states = reached.table.states;
    let codes = codes_with(alloc, states, slip)?;
    let bits = code_bits(states);
    let mut problem = problem_of(alloc, &reached.table, &codes, bits, false)?;
    if matches!(slip, Slip::Target | Slip::Products) {
        tell_opposite(&mut problem);
    }
    match net_with(alloc, problem, slip)? {
        Some(net) => circuit_of(alloc, &net, circuit),
        None => Ok(None),
    }
}

/// The numbers of the states, but for the slip.
fn codes_with(alloc: Global, states: usize, slip: Slip) -> Result<Vec<u32>, AllocError> {
    let mut codes = Vec::new(alloc);
    for state in 0..u32::try_from(states).unwrap_or(0) {
        let code = match slip {
            Slip::Code if state == 1 => 0,
            Slip::Start => state ^ 1,
            _ => state,
        };
        codes.push(code)?;
    }
    Ok(codes)
}

/// Makes the first target its opposite.
fn tell_opposite(problem: &mut Problem) {
    if let Some(target) = problem.targets.first_mut() {
        for word in target.iter_mut() {
            *word = !*word;
        }
    }
}

fn net_with(alloc: Global, problem: Problem, slip: Slip) -> Result<Option<Net>, AllocError> {
    let mut problem = problem;
    let mut work = Work::new(STEPS, 1);
    let net = match slip {
        Slip::Products => net_of_products(alloc, &problem, &mut work)?,
        _ => decomposed_net(alloc, &problem, &mut work)?,
    };
    if let Slip::Care = slip {
        problem.width = 0;
    }
    match net {
        Some(net) => Ok(Some(improved(net, &problem, &mut work)?)),
        None => Ok(None),
    }
}
