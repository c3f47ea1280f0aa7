//! A strategy whose machine and circuit are made smaller. Nothing is said of what is found: it is tested.

use crate::finding::{Printable, Strategy, annotated, maker};
use game_machine::{GivenTable, table_circuit};
use letters_and_lassos::{Kind, Side};
use machine_model::Row;
use machine_reductions::with_fewer_states;
use small_circuits::{Effort, small_circuit};
use solve_ground::SolveText;
use std::alloc::{AllocError, Global};
use time_limits::Deadline;

/// The steps that making a machine smaller may take: about a fifth of a second.
const STEPS: u64 = 10_000_000;

/// The steps that making a circuit smaller may take: some tenths of a second.
const GATE_STEPS: u64 = 300_000_000;

/// The strategy with fewer states and then with fewer gates, as far as such ones are found.
pub(crate) fn made_small<D: Deadline>(
    alloc: Global,
    text: &SolveText,
    strategy: Strategy,
    deadline: &D,
) -> Strategy {
    let smaller = with_fewer(alloc, text, strategy, deadline);
    with_fewer_gates(alloc, text, smaller, deadline)
}

/// The strategy by a circuit with fewer gates and as many states, where one is found that has an annotation, else the one that is there.
pub(crate) fn with_fewer_gates<D: Deadline>(
    alloc: Global,
    text: &SolveText,
    strategy: Strategy,
    deadline: &D,
) -> Strategy {
    if deadline.is_over() {
        return strategy;
    }
    let side = strategy.side;
    let effort = Effort { steps: GATE_STEPS };
    match small_circuit(alloc, &strategy.circuit, side, text.kind, effort, deadline) {
        Ok(Some(circuit)) => match annotated(alloc, text, side, circuit, deadline) {
            Ok(Printable::Of(smaller)) if smaller.states == strategy.states => smaller,
            _ => strategy,
        },
        _ => strategy,
    }
}

/// The strategy of a machine with fewer states, where one is found that has an annotation, else the one that is there.
fn with_fewer<D: Deadline>(
    alloc: Global,
    text: &SolveText,
    strategy: Strategy,
    deadline: &D,
) -> Strategy {
    match smaller(alloc, text, &strategy, deadline) {
        Ok(Some(smaller)) => smaller,
        _ => strategy,
    }
}

fn smaller<D: Deadline>(
    alloc: Global,
    text: &SolveText,
    strategy: &Strategy,
    deadline: &D,
) -> Result<Option<Strategy>, AllocError> {
    if deadline.is_over() {
        return Ok(None);
    }
    let side = strategy.side;
    let maker = maker(text, side, &strategy.circuit);
    match with_fewer_states(alloc, maker, kind_of(text, side), STEPS, deadline)? {
        Some(machine) if machine.states < strategy.states => {
            strategy_of(alloc, text, side, machine.states, &machine.rows, deadline)
        }
        _ => Ok(None),
    }
}

/// The kind of a side's machines.
fn kind_of(text: &SolveText, side: Side) -> Kind {
    match side {
        Side::System => text.kind,
        Side::Environment => text.kind.other(),
    }
}

/// The strategy of a machine, unless its circuit or its annotation passes a limit.
pub(crate) fn strategy_of<D: Deadline>(
    alloc: Global,
    text: &SolveText,
    side: Side,
    states: u32,
    rows: &[Row],
    deadline: &D,
) -> Result<Option<Strategy>, AllocError> {
    let table = GivenTable {
        inputs: &text.inputs,
        outputs: &text.outputs,
        side,
        kind: text.kind,
        states,
        rows,
    };
    let Some(circuit) = table_circuit(alloc, table)? else {
        return Ok(None);
    };
    match annotated(alloc, text, side, circuit, deadline)? {
        Printable::Of(strategy) => Ok(Some(strategy)),
        Printable::Withheld(..) => Ok(None),
    }
}
