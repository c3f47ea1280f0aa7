//! A text with a circuit, whose machine is made smaller.

use crate::headings::{Heading, Sides, Slip};
use aiger_text::{Circuit, read_circuit};
use annotation_maker::Maker;
use game_machine::{GivenTable, table_circuit};
use letters_and_lassos::{Kind, Side};
use machine_model::{Counts, Problem};
use machine_reductions::{Reduction, with_fewer_states};
use product_test::passes;
use solve_ground::{SolveText, solve_text};
use spec_problems::{TextProblems, text_problems};
use std::alloc::{AllocError, Global};
use time_limits::NoDeadline;

/// The line between a text and a circuit.
const MARK: &[u8] = b"---- circuit\n";

/// What a line ends with that the reduction isn't told, where that is the slip.
const UNTOLD: &[u8] = b"// untold\n";

/// What comes of a text and a circuit. None where there is no circuit.
pub(crate) fn push_reduction(
    alloc: Global,
    out: &mut Vec<u8>,
    heading: Heading,
    row: &[u8],
) -> Result<Option<()>, AllocError> {
    let Some((text, circuit)) = parts(row) else {
        return Ok(None);
    };
    let told = told_lines(alloc, text, heading.slip)?;
    let problems = text_problems(alloc, text, None, Counts::Whole);
    let told = solve_text(alloc, &told, None);
    let circuit = read_circuit(alloc, circuit);
    match (problems, told, circuit) {
        (Ok(problems), Ok(told), Ok(file)) => {
            push_outcome(alloc, out, heading, &problems, &told, &file.circuit)?;
        }
        _ => out.extend_from_slice(b"a text or a circuit can't be read\n")?,
    }
    Ok(Some(()))
}

/// What stands before the line between a text and a circuit, and what stands behind it.
fn parts(row: &[u8]) -> Option<(&[u8], &[u8])> {
    for place in 0..row.len() {
        let (text, rest) = row.split_at(place);
        if rest.starts_with(MARK) {
            return Some((text, rest.get(MARK.len()..)?));
        }
    }
    None
}

/// The lines that the reduction is told.
fn told_lines(alloc: Global, text: &[u8], slip: Slip) -> Result<Vec<u8>, AllocError> {
    let mut told = Vec::new(alloc);
    for line in text.split_inclusive(|byte| *byte == b'\n') {
        if !(matches!(slip, Slip::Untold) && line.ends_with(UNTOLD)) {
            told.extend_from_slice(line)?;
        }
    }
    Ok(told)
}

/// How many states are left, and whether the smaller circuit passes.
fn push_outcome(
    alloc: Global,
    out: &mut Vec<u8>,
    heading: Heading,
    text: &TextProblems,
    told: &SolveText,
    circuit: &Circuit,
) -> Result<(), AllocError> {
    let Some(problem) = problem_of(text, heading.sides) else {
        return out.extend_from_slice(b"a side that has no automaton\n");
    };
    if !passes(alloc, problem, circuit)? {
        return out.extend_from_slice(b"the circuit is rejected\n");
    }
    let Some(smaller) = reduced(alloc, problem, told, circuit, heading)? else {
        return out.extend_from_slice(b"no smaller machine\n");
    };
    let states = smaller.states;
    let Some(circuit) = circuit_of(alloc, text, problem, &smaller)? else {
        return out.extend_from_slice(b"no circuit\n");
    };
    let said = if passes(alloc, problem, &circuit)? {
        "passes"
    } else {
        "is rejected"
    };
    let line = format!(in alloc; "smaller machine {said}, {states} states\n")?;
    out.extend_from_slice(line.as_bytes())
}

fn problem_of(text: &TextProblems, sides: Sides) -> Option<&Problem> {
    match sides {
        Sides::Environment => text.problems.environment.as_ref(),
        Sides::Both | Sides::System => Some(&text.problems.system),
    }
}

fn reduced(
    alloc: Global,
    problem: &Problem,
    told: &SolveText,
    circuit: &Circuit,
    heading: Heading,
) -> Result<Option<Reduction>, AllocError> {
    let maker = Maker {
        circuit,
        side: problem.side,
        formulas: &told.formulas,
        form: match problem.side {
            Side::System => told.negated,
            Side::Environment => told.normal,
        },
    };
    with_fewer_states(
        alloc,
        maker,
        kind_told(problem, heading.slip),
        heading.steps,
        &NoDeadline,
    )
}

/// The kind of which the machine is said to be.
fn kind_told(problem: &Problem, slip: Slip) -> Kind {
    match slip {
        Slip::Kind => problem.kind.other(),
        _ => problem.kind,
    }
}

fn circuit_of(
    alloc: Global,
    text: &TextProblems,
    problem: &Problem,
    machine: &Reduction,
) -> Result<Option<Circuit>, AllocError> {
    let table = GivenTable {
        inputs: &text.spec.inputs,
        outputs: &text.spec.outputs,
        side: problem.side,
        kind: problem.kind,
        states: machine.states,
        rows: &machine.rows,
    };
    table_circuit(alloc, table)
}
