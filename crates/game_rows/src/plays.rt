//! A text that is played, and what comes of it.

use crate::headings::{Heading, Sides, Slip};
use crate::reductions::push_reduction;
use game_machine::{Budget, Contest, Found, Outcome, find};
use letters_and_lassos::Side;
use machine_model::{Automaton, Counts, Edge, Problem};
use product_test::passes;
use spec_problems::{TextProblems, text_problems};
use std::alloc::{AllocError, Global};
use std::thread::Threads;
use time_limits::NoDeadline;

const MOST_POSITIONS: usize = 100_000;

const MOST_BYTES: usize = 1_000_000_000;

/// A heading, and what comes of its text.
pub(crate) fn push_row<R: Threads>(
    rt: &R,
    alloc: Global,
    out: &mut Vec<u8>,
    heading: &[u8],
    text: &[u8],
) -> Result<(), AllocError> {
    out.extend_from_slice(heading)?;
    if let Some(()) = push_reduction(alloc, out, Heading::of(heading), text)? {
        return Ok(());
    }
    match text_problems(alloc, text, None, Counts::Whole) {
        Ok(problems) => push_play(rt, alloc, out, Heading::of(heading), &problems),
        Err(fault) => {
            let line = format!(in alloc; "{fault}\n")?;
            out.extend_from_slice(line.as_bytes())
        }
    }
}

/// Plays the sides that the heading names, with one worker and with two, which have to find the same.
fn push_play<R: Threads>(
    rt: &R,
    alloc: Global,
    out: &mut Vec<u8>,
    heading: Heading,
    text: &TextProblems,
) -> Result<(), AllocError> {
    let system = told(alloc, text, Side::System, heading.slip)?;
    let environment = told(alloc, text, Side::Environment, heading.slip)?;
    let contest = contest(text, heading, system.as_ref(), environment.as_ref());
    let by_one = find(rt, alloc, contest, budget(heading), 1, &NoDeadline)?;
    let by_two = find(rt, alloc, contest, budget(heading), 2, &NoDeadline)?;
    if !are_alike(&by_one, &by_two) {
        return out.extend_from_slice(b"two workers find something else\n");
    }
    let Outcome::Found(found) = by_one else {
        return out.extend_from_slice(b"nobody\n");
    };
    match problem_of(text, found.side) {
        Some(problem) => push_found(alloc, out, problem, &found, heading),
        None => out.extend_from_slice(b"a side that has no automaton\n"),
    }
}

/// Whether two outcomes say the same.
fn are_alike(one: &Outcome, other: &Outcome) -> bool {
    match (one, other) {
        (Outcome::Found(one), Outcome::Found(other)) => {
            one.side == other.side
                && one.states == other.states
                && one.circuit.gates == other.circuit.gates
        }
        (Outcome::NoWin(one), Outcome::NoWin(other)) => one == other,
        (Outcome::NoCircuit(one), Outcome::NoCircuit(other)) => one == other,
        _ => false,
    }
}

/// What the games may use.
fn budget(heading: Heading) -> Budget {
    Budget {
        steps: heading.steps,
        positions: match heading.slip {
            Slip::Positions => 2,
            _ => MOST_POSITIONS,
        },
        bytes: match heading.slip {
            Slip::Bytes => 300,
            _ => MOST_BYTES,
        },
    }
}

/// The automaton of a side as the games are told of it.
fn told(
    alloc: Global,
    text: &TextProblems,
    side: Side,
    slip: Slip,
) -> Result<Option<Automaton>, AllocError> {
    let whose = match (slip, side) {
        (Slip::Exchange, Side::System) => Side::Environment,
        (Slip::Exchange, Side::Environment) => Side::System,
        _ => side,
    };
    match problem_of(text, whose) {
        Some(problem) => slipped(alloc, &problem.automaton, slip),
        None => Ok(None),
    }
}

/// The automaton with what the slip leaves of it.
fn slipped(
    alloc: Global,
    automaton: &Automaton,
    slip: Slip,
) -> Result<Option<Automaton>, AllocError> {
    let mut edges = Vec::new(alloc);
    for edge in automaton.edges() {
        match slip {
            Slip::Edges => {}
            Slip::Ends => edges.push(Edge {
                to: edge.from,
                ..*edge
            })?,
            _ => edges.push(*edge)?,
        }
    }
    let mut rejecting = Vec::new(alloc);
    for state in 0..automaton.states() {
        rejecting.push(automaton.is_rejecting(state) && !matches!(slip, Slip::Marks))?;
    }
    if rejecting.len() > 1_000_000 {
        return Ok(None);
    }
    Ok(Automaton::new(edges, rejecting).ok())
}

/// What the games are told.
fn contest<'a>(
    text: &'a TextProblems,
    heading: Heading,
    system: Option<&'a Automaton>,
    environment: Option<&'a Automaton>,
) -> Contest<'a> {
    let kind = match heading.slip {
        Slip::Kind => text.spec.kind.other(),
        _ => text.spec.kind,
    };
    let (system, environment) = match heading.sides {
        Sides::Both => (system, environment),
        Sides::System => (system, None),
        Sides::Environment => (None, environment),
    };
    Contest {
        inputs: &text.spec.inputs,
        outputs: &text.spec.outputs,
        kind,
        system,
        environment,
    }
}

fn problem_of(text: &TextProblems, side: Side) -> Option<&Problem> {
    match side {
        Side::System => Some(&text.problems.system),
        Side::Environment => text.problems.environment.as_ref(),
    }
}

/// Who wins, and with what, where the circuit passes the test.
fn push_found(
    alloc: Global,
    out: &mut Vec<u8>,
    problem: &Problem,
    found: &Found,
    heading: Heading,
) -> Result<(), AllocError> {
    let winner = match problem.side {
        Side::System => "system",
        Side::Environment => "environment",
    };
    if !passes(alloc, problem, &found.circuit)? {
        let line = format!(in alloc; "{winner} is rejected\n")?;
        return out.extend_from_slice(line.as_bytes());
    }
    let states = found.states;
    let gates = (found.circuit.gates.len() as u64).saturating_mul(5);
    let size = if gates <= heading.gates.saturating_mul(6) {
        "few"
    } else {
        "many"
    };
    let line = format!(in alloc; "{winner} passes, {states} states, {size} gates\n")?;
    out.extend_from_slice(line.as_bytes())
}
