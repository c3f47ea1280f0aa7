//! The choice of the smallest circuit.

use crate::reached::reached_by;
use crate::texts::circuit_of;
use aiger_text::Circuit;
use letters_and_lassos::{Kind, Side};
use state_codes::{code_bits, small_net};
use std::alloc::{AllocError, Global};
use time_limits::Deadline;

/// How much is done for a small circuit, in steps of about a nanosecond.
#[derive(Clone, Copy)]
pub struct Effort {
    pub steps: u64,
}

/// A circuit with fewer gates than this one, or as many and fewer latches, that does the same in all states that are reached, of which it has
/// as many. It has the same inputs and outputs with their names, and its latches are unset at the start. The circuit is of the side's
/// machines where the system's are of this kind: where those are Moore machines, no output is made of an input by gates.
/// None where no such circuit was found, where the circuit has over 2 ^ 18 pairs of a reached state and a letter, over 16 inputs, 64 outputs
/// or 32 latches, or where it isn't of the kind.
/// Once the time is over, it is the smallest that was found by then.
pub fn small_circuit<D: Deadline>(
    alloc: Global,
    circuit: &Circuit,
    side: Side,
    kind: Kind,
    effort: Effort,
    deadline: &D,
) -> Result<Option<Circuit>, AllocError> {
    if circuit.gates.is_empty() || circuit.outputs.len() > 64 {
        return Ok(None);
    }
    let Some(reached) = reached_by(alloc, circuit)? else {
        return Ok(None);
    };
    let is_moore = matches!(
        (side, kind),
        (Side::System, Kind::Moore) | (Side::Environment, Kind::Mealy)
    );
    let bits = code_bits(reached.table.states);
    let latches = circuit.latches.len();
    if bits as usize > latches || is_moore && !reached.table.writes_by_state() {
        return Ok(None);
    }
    let Some(net) = small_net(
        alloc,
        &reached.table,
        &reached.codes,
        is_moore,
        effort.steps,
        deadline,
    )?
    else {
        return Ok(None);
    };
    let gates = circuit.gates.len();
    if net.gates() < gates || net.gates() == gates && (bits as usize) < latches {
        circuit_of(alloc, &net, circuit)
    } else {
        Ok(None)
    }
}
